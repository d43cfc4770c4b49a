//! Messages of a chord of three members, changed in one place. Task 2 is its second member, task 4
//! its body, task 5 the body's error callback.

/// The message of the second member: its properties, headers and body, each on a line, in the
/// notation of frozen texts.
pub(crate) const MEMBER: &str = concat!(
    r#"{"content_encoding":"utf-8","content_type":"application/json","correlation_id":"%2"}"#,
    "\n",
    r#"{"group":"@1","id":"%2","lang":"rs","parent_id":null,"root_id":"%1","task":"tasks.div"}"#,
    "\n",
    r#"[[1,0],{},{"callbacks":null,"chain":null,"chord":{"args":[],"chord_size":3,"immutable":false,"kwargs":{},"options":{"link_error":[{"args":[],"immutable":false,"kwargs":{},"options":{"task_id":"%5"},"subtask_type":null,"task":"tasks.log_error"}],"task_id":"%4"},"subtask_type":null,"task":"tasks.xsum"},"errbacks":null}]"#
);

/// The message of the body's error callback, in the same way.
pub(crate) const CALLBACK: &str = concat!(
    r#"{"content_encoding":"utf-8","content_type":"application/json","correlation_id":"%5"}"#,
    "\n",
    r#"{"group":null,"id":"%5","lang":"rs","parent_id":"%4","root_id":"%1","task":"tasks.log_error"}"#,
    "\n",
    r#"[["%4"],{},{"callbacks":null,"chain":null,"chord":null,"errbacks":null}]"#
);

/// A change: a text of the message, at each place that has it, and what replaces it.
pub(crate) type Change = [&'static str; 2];

/// Changes of the member's message: names that the plan doesn't have, or has elsewhere.
pub(crate) const NAMES: [Change; 34] = [
    // tasks that the plan doesn't have
    ["%2", "%6"],
    ["%2", "%7"],
    ["%2", "%9"],
    ["%2", "%f"],
    ["%2", "00000000-0000-8000-8000-000000000100"],
    ["%2", "00000000-0000-8000-8000-0000ffffffff"],
    // tasks that are no member of the chord
    ["%2", "%4"],
    ["%2", "%5"],
    // other sizes: a part would complete the header too early, or never
    [r#""chord_size":3"#, r#""chord_size":1"#],
    [r#""chord_size":3"#, r#""chord_size":2"#],
    [r#""chord_size":3"#, r#""chord_size":4"#],
    [r#""chord_size":3"#, r#""chord_size":1024"#],
    // groups that the plan doesn't have
    ["@1", "@2"],
    ["@1", "@3"],
    ["@1", "@f"],
    ["@1", "00000000-0000-8000-9000-0000ffffffff"],
    // parents that the plan doesn't have
    [r#""parent_id":null"#, r#""parent_id":"%6""#],
    [r#""parent_id":null"#, r#""parent_id":"%f""#],
    [
        r#""parent_id":null"#,
        r#""parent_id":"00000000-0000-8000-8000-0000ffffffff""#,
    ],
    // bodies and callbacks that the plan doesn't have
    ["%4", "%6"],
    ["%4", "00000000-0000-8000-8000-0000ffffffff"],
    ["%5", "%6"],
    [r#"{"task_id":"%5"}"#, r#"{"link":$7"}},"task_id":"%5"}"#],
    [r#""callbacks":null"#, r#""callbacks":[$6"}}]"#],
    [r#""callbacks":null"#, r#""callbacks":[$5"}},$6"}}]"#],
    [r#""errbacks":null"#, r#""errbacks":[$7"}}]"#],
    // a body with a place: in no group of the plan, or as a member that it isn't
    [r#""task_id":"%4""#, r#""group_id":"@2","task_id":"%4""#],
    [r#""task_id":"%4""#, r#""group_id":"@1","task_id":"%4""#],
    [
        r#""task_id":"%4""#,
        r#""chord":{"task":"x","chord_size":3,"options":{"task_id":"%4"}},"group_id":"@1","task_id":"%4""#,
    ],
    // completions of a header that isn't as the plan has it
    [
        r#""task_id":"%4""#,
        r#""chord":{"task":"x","chord_size":1,"options":{"task_id":"%5"}},"group_id":"@2","task_id":"%4""#,
    ],
    [
        r#""task_id":"%4""#,
        r#""chord":{"task":"x","chord_size":1,"options":{"task_id":"%6"}},"group_id":"@1","task_id":"%2""#,
    ],
    [
        r#""task_id":"%4""#,
        r#""chord":{"task":"x","chord_size":2,"options":{"task_id":"%4"}},"group_id":"@1","task_id":"%2""#,
    ],
    [r#""task_id":"%4""#, r#""group_id":"@2","task_id":"%2""#],
    [
        r#""task_id":"%4""#,
        r#""chord":{"task":"x","chord_size":4,"options":{"task_id":"%4"}},"group_id":"@1","task_id":"%3""#,
    ],
];

/// Changes of the member's message by which it is none.
pub(crate) const FORMS: [Change; 34] = [
    [r#""correlation_id":"%2"}"#, r#""correlation_id":"%2""#],
    [r#""task":"tasks.div"}"#, r#""task":"tasks.div"}}"#],
    ["[[1,0]", "[1,0]"],
    [r#""task":"tasks.div""#, r#""Task":"tasks.div""#],
    [r#""task":"tasks.div""#, r#""task":"""#],
    [r#""task":"tasks.div""#, r#""task":"tasks div""#],
    [r#""task":"tasks.div""#, r#""task":null"#],
    [r#""id":"%2""#, r#""id":"%3""#],
    [r#""id":"%2""#, r#""id":"@2""#],
    [r#""id":"%2""#, r#""id":"%0""#],
    [r#""id":"%2""#, r#""id":2"#],
    [r#""correlation_id":"%2""#, r#""correlation_id":"%3""#],
    [r#""correlation_id":"%2""#, r#""correlation_id":null"#],
    [r#""group":"@1""#, r#""group":null"#],
    [r#""group":"@1""#, r#""group":"%1""#],
    [r#""group":"@1""#, r#""group":1"#],
    ["application/json", "application/x-python-serialize"],
    ["utf-8", "binary"],
    ["[[1,0],{},", "[[1,0],"],
    ["[1,0]", "[1,0.5]"],
    ["[1,0]", "[1,null]"],
    ["[1,0]", "[1,1152921504606846977]"],
    ["[1,0]", "{}"],
    ["[1,0],{}", "[1,0],[]"],
    [r#""chord_size":3"#, r#""chord_size":0"#],
    [r#""chord_size":3"#, r#""chord_size":1025"#],
    [r#""chord_size":3"#, r#""chord_size":-3"#],
    [r#""chord_size":3"#, r#""chord_size":"3""#],
    [r#""chord_size":3,"#, ""],
    [r#""callbacks":null"#, r#""callbacks":7"#],
    [
        r#""callbacks":null"#,
        r#""callbacks":[$5","group_id":"@1"}}]"#,
    ],
    [r#""chain":null"#, r#""chain":[$5"}}]"#],
    [r#""subtask_type":null"#, r#""subtask_type":"chunks""#],
    [r#","task_id":"%4""#, ""],
];

/// Changes of the callback's message by which what follows it isn't the plan's.
pub(crate) const RESTS: [Change; 22] = [
    [r#""parent_id":"%4""#, r#""parent_id":"%6""#],
    ["%5", "%6"],
    [r#""group":null"#, r#""group":"@1""#],
    [r#""group":null"#, r#""group":"@2""#],
    [r#""callbacks":null"#, r#""callbacks":[$6"}}]"#],
    [r#""errbacks":null"#, r#""errbacks":[$6"}}]"#],
    [r#""chain":null"#, r#""chain":[$6"}}]"#],
    [r#""chain":null"#, r#""chain":[$2","group_id":"@2"}}]"#],
    [r#""chain":null"#, r#""chain":[$4","group_id":"@1"}}]"#],
    [
        r#""chain":null"#,
        r#""chain":[$2","group_id":"@1","chord":{"task":"x","chord_size":1,"options":{"task_id":"%4"}}}}]"#,
    ],
    [
        r#""chain":null"#,
        r#""chain":[$2","group_id":"@1","chord":{"task":"x","chord_size":3,"options":{"task_id":"%6"}}}}]"#,
    ],
    // chords and groups that the plan doesn't have so
    [
        r#""chain":null"#,
        r#""chain":[^1"},"kwargs":{"header":[$1"}},$2"}}],"body":$4"}}}}]"#,
    ],
    [
        r#""chain":null"#,
        r#""chain":[^1"},"kwargs":{"header":[$1"}},$2"}},$3"}},$3"}}],"body":$4"}}}}]"#,
    ],
    [
        r#""chain":null"#,
        r#""chain":[^1"},"kwargs":{"header":[$1"}},$2"}},$5"}}],"body":$4"}}}}]"#,
    ],
    [
        r#""chain":null"#,
        r#""chain":[^1"},"kwargs":{"header":[$1"}},$2"}},$3"}}],"body":$6"}}}}]"#,
    ],
    [
        r#""chain":null"#,
        r#""chain":[^2"},"kwargs":{"header":[$1"}},$2"}},$3"}}],"body":$4"}}}}]"#,
    ],
    [
        r#""chain":null"#,
        r#""chain":[^1"},"kwargs":{"header":[],"body":$4"}}}}]"#,
    ],
    [
        r#""chain":null"#,
        r#""chain":[&2"},"kwargs":{"tasks":[$1"}}]}}]"#,
    ],
    [
        r#""chain":null"#,
        r#""chain":[&1"},"kwargs":{"tasks":[$4"}}]}}]"#,
    ],
    [
        r#""chain":null"#,
        r#""chain":[&1"},"kwargs":{"tasks":[$6"}}]}}]"#,
    ],
    [
        r#""chain":null"#,
        r#""chain":[&1"},"kwargs":{"tasks":[&1"},"kwargs":{"tasks":[$1"}}]}}]}}]"#,
    ],
    [r#"[["%4"]"#, r#"[[["%4"]]"#],
];

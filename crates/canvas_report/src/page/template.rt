//! The page without its block. `tools/page-template` makes this file of the parts in
//! python/src/bevtragi/template/: change them, and then run it.

/// What comes before the block.
pub(crate) const HEAD: &str = r####"<!DOCTYPE html>
<html lang="en">
<head>
<meta charset="utf-8">
<meta http-equiv="Content-Security-Policy" content="default-src 'none'; style-src 'sha256-hyaJrkVqqi6AwispPPgkhch5Up4pSire9wszjU+qRAk='; script-src 'sha256-civlspCthcLYnshFZQai2GnXJI42H5+5DR1OhRBOW3Y='; base-uri 'none'; form-action 'none'; require-trusted-types-for 'script'; trusted-types 'none'">
<meta name="viewport" content="width=device-width, initial-scale=1">
<meta name="referrer" content="no-referrer">
<meta name="color-scheme" content="light dark">
<title>Canvas</title>
<style>
/* Colours. Each text has a contrast of at least 4.5 to 1 to what is below it, by day and night. */
:root {
  --page: #fafaf8; --card: #ffffff; --ink: #1f252b; --dim: #646d77;
  --rail: #b9c0c8; --hair: #e3e6e9; --bright: #ffffff;
  --well: #1a7f4b; --well-face: #eef8f2;
  --bad: #c4302b; --bad-face: #fdeeec;
  --skip: #8f5e00; --skip-face: #fff7e0;
  --busy: #1f5fbf; --busy-face: #eaf1fd;
  --other: #6a3fc0; --other-face: #f3edff;
  --quiet: #656f79;
  font: 14px/1.45 system-ui, -apple-system, "Segoe UI", "Helvetica Neue", "DejaVu Sans", sans-serif;
  color: var(--ink);
  background: var(--page);
}
@media (prefers-color-scheme: dark) {
  :root {
    --page: #13161a; --card: #1b2026; --ink: #e6eaee; --dim: #98a3ae;
    --rail: #4a545e; --hair: #2b323a; --bright: #13161a;
    --well: #4cc38a; --well-face: #14271f;
    --bad: #ff8078; --bad-face: #331b1c;
    --skip: #e0b040; --skip-face: #2b2413;
    --busy: #74b3ff; --busy-face: #16273c;
    --other: #c3a6ff; --other-face: #251c3a;
    --quiet: #8b96a1;
  }
}

/* States: the edge and face of a task, and the disc and sign of its icon. */
[data-state=succeeded] {
  --edge: var(--well);
  --face: var(--well-face);
  --line: solid;
  --disc: var(--well);
  --sign: var(--bright);
}
[data-state=failed] {
  --edge: var(--bad);
  --face: var(--bad-face);
  --line: solid;
  --disc: var(--bad);
  --sign: var(--bright);
}
[data-state=skipped] {
  --edge: var(--skip);
  --face: var(--skip-face);
  --line: dashed;
  --disc: transparent;
  --sign: var(--skip);
}
[data-state=unneeded], [data-state=uncalled], [data-state=waiting] {
  --edge: var(--rail);
  --face: transparent;
  --line: dotted;
  --disc: transparent;
  --sign: var(--quiet);
}
[data-state=queued] {
  --edge: var(--busy);
  --face: var(--card);
  --line: dashed;
  --disc: transparent;
  --sign: var(--busy);
}
[data-state=working] {
  --edge: var(--busy);
  --face: var(--busy-face);
  --line: solid;
  --disc: var(--busy);
  --sign: var(--bright);
}
[data-state=unknown] {
  --edge: var(--dim);
  --face: transparent;
  --line: dashed;
  --disc: transparent;
  --sign: var(--dim);
}
.icon[data-state=skipped], .icon[data-state=queued], .icon[data-state=unknown] {
  border-color: var(--sign);
}
.icon[data-state=unneeded], .icon[data-state=uncalled], .icon[data-state=waiting] {
  border: 2px dotted var(--quiet);
}

/* The page: a head, the picture with a column beside it, a player and a foot. */
*, ::before, ::after { box-sizing: border-box; }
[hidden] { display: none !important; }
body {
  margin: 0;
  height: 100vh;
  height: 100dvh;
  display: grid;
  grid-template: auto minmax(0, 1fr) auto auto / minmax(0, 1fr) 430px;
}
header {
  grid-column: 1 / -1;
  display: flex;
  flex-wrap: wrap;
  align-items: center;
  gap: 6px 24px;
  padding: 12px 20px;
  border-bottom: 1px solid var(--hair);
  background: var(--card);
}
h1 { margin: 0; font-size: 17px; overflow-wrap: anywhere; }
h2 { margin: 0 0 4px; font-size: 16px; overflow-wrap: anywhere; }
h3 {
  margin: 14px 0 6px;
  font-size: 11px;
  letter-spacing: .06em;
  text-transform: uppercase;
  color: var(--dim);
}
p { margin: 0 0 6px; }
ol, ul { list-style: none; margin: 0; padding: 0; }
button, select, input { font: inherit; color: inherit; }
button { cursor: pointer; }
:focus-visible { outline: 2.5px solid var(--busy); outline-offset: 2px; }
#facts { flex: 1; margin: 0; color: var(--dim); }
footer {
  grid-column: 1 / -1;
  padding: 6px 20px;
  border-top: 1px solid var(--hair);
  font-size: 11.5px;
  color: var(--dim);
  overflow-wrap: anywhere;
}
.switch {
  display: flex;
  overflow: hidden;
  border: 1px solid var(--hair);
  border-radius: 9px;
  background: var(--page);
}
.switch button { border: 0; padding: 6px 14px; background: none; color: var(--dim); }
.switch button[aria-pressed=true] { background: var(--ink); color: var(--card); }
.switch button:focus-visible { outline-offset: -3px; }
#truth-celery[aria-pressed=true] { background: var(--other); color: var(--bright); }

/* The picture: a line is a row of tasks; a fork of it is a group or a chord's header. */
#look { position: relative; overflow: auto; padding: 28px 28px 40px; }
#picture { width: max-content; min-width: 100%; }
.line, .line > li { display: flex; align-items: flex-start; }
.line > li + li::before {
  content: "";
  flex: none;
  width: 26px;
  height: 8px;
  margin-top: 20px;
  background: var(--rail);
  clip-path: polygon(0 3px, 19px 3px, 19px 0, 26px 4px, 19px 8px, 19px 5px, 0 5px);
}
.line > li.fork::before { clip-path: polygon(0 3px, 26px 3px, 26px 5px, 0 5px); }
.line > li[data-state=skipped]::before {
  background: linear-gradient(90deg, transparent 18px, var(--skip) 18px),
    repeating-linear-gradient(90deg, var(--skip) 0 5px, transparent 5px 9px);
}
.box { flex: 1; display: flex; flex-direction: column; }
.head { display: flex; }
.rail { flex: 1; height: 2px; margin-top: 23px; }
.line > li.followed > .box > .head > .rail,
.joined > li > .line > li:last-child > .box > .head > .rail { background: var(--rail); }

/* A fork: each member has a bend of rail before it, and in a chord one after it, to the gate. */
.members { display: flex; flex-direction: column; }
.members > li { display: flex; align-items: stretch; }
.members > li > .line { padding-bottom: 12px; }
.members > li:last-child > .line { padding-bottom: 0; }
.joined > li > .line > li:last-child > .box { flex: 1; }
.entry, .exit { position: relative; flex: none; width: 26px; min-height: 48px; }
.exit { flex: 1; min-width: 36px; }
.members:not(.joined) > li > .exit { display: none; }
.entry::before, .entry::after, .exit::before, .exit::after {
  content: "";
  position: absolute;
  border: 0 solid var(--rail);
}
.entry::before {
  inset: 0 0 auto 0;
  height: 25px;
  border-width: 0 0 2px 2px;
  border-bottom-left-radius: 13px;
}
.entry::after { inset: 0 auto 0 0; border-left-width: 2px; }
.exit::before {
  inset: 0 10px auto 0;
  height: 25px;
  border-width: 0 2px 2px 0;
  border-bottom-right-radius: 13px;
}
.exit::after { inset: 0 10px 0 auto; border-right-width: 2px; }
.members > li:first-child > .exit::before { right: 0; }
.members > li:first-child > .entry::before, .members > li:first-child > .exit::before {
  border-width: 0 0 2px;
  border-radius: 0;
}
.members > li:first-child > .entry::after, .members > li:first-child > .exit::after { top: 23px; }
.members > li:last-child > .entry::after, .members > li:last-child > .exit::after { display: none; }
.gate {
  flex: none;
  height: 22px;
  margin-top: 13px;
  padding: 0 9px;
  border: 1.5px solid var(--rail);
  border-radius: 11px;
  background: var(--card);
  color: var(--dim);
  font-size: 11.5px;
  line-height: 19px;
  white-space: nowrap;
  font-variant-numeric: tabular-nums;
}
.gate[data-count=some] { border-color: var(--busy); color: var(--busy); }
.gate[data-count=all] { border-color: var(--busy); background: var(--busy); color: var(--bright); }

/* Callbacks hang below their task on a dashed wire, which is dark once they are called. */
.calls { margin-left: 22px; }
.calls > li { position: relative; display: flex; align-items: stretch; padding-top: 19px; }
.calls > li:not(:last-child)::after {
  content: "";
  position: absolute;
  inset: 31px auto 0 0;
  border-left: 2px dashed var(--rail);
}
.wire { position: relative; flex: none; width: 22px; }
.wire::before {
  content: "";
  position: absolute;
  inset: -19px 0 auto 0;
  height: 44px;
  border: 0 dashed var(--rail);
  border-width: 0 0 2px 2px;
  border-bottom-left-radius: 10px;
}
.calls > li[data-state=succeeded] > .wire::before,
.calls > li[data-state=failed] > .wire::before {
  border-color: var(--ink);
}
.when {
  position: absolute;
  left: 10px;
  top: 2px;
  font-size: 11px;
  color: var(--dim);
  white-space: nowrap;
}

/* A task: its icon, its name, a note below the name, and a tag on its edge. */
.task {
  position: relative;
  flex: none;
  display: grid;
  grid-template-columns: 20px minmax(0, auto);
  column-gap: 9px;
  align-items: center;
  height: 48px;
  min-width: 152px;
  max-width: 250px;
  padding: 0 13px 0 11px;
  border: 1.5px var(--line, solid) var(--edge, var(--rail));
  border-radius: 11px;
  background: var(--face, var(--card));
  text-align: left;
  transition: background .15s, border-color .15s;
}
.task:hover { border-color: var(--ink); }
.task > .name, .task > .note {
  overflow: hidden;
  text-overflow: ellipsis;
  white-space: nowrap;
  unicode-bidi: isolate;
}
.task > .name { align-self: end; font-size: 13.5px; font-weight: 600; line-height: 18px; }
.task > .note {
  grid-column: 2;
  align-self: start;
  width: 0;
  min-width: 100%;
  font-size: 11.5px;
  line-height: 15px;
  color: var(--dim);
}
.name i { font-style: normal; font-weight: 400; color: var(--dim); }
[data-state=unneeded] > .box > .head .name,
[data-state=uncalled] > .box > .head .name,
[data-state=waiting] > .box > .head .name {
  color: var(--dim);
}
[data-state=working] > .box > .head > .task { box-shadow: 0 0 0 2px var(--busy); }
.task[aria-pressed=true] { box-shadow: 0 0 0 2px var(--bad); }
.playing .task[data-now] { outline: 2px solid var(--busy); outline-offset: 3px; }
.icon {
  grid-row: 1 / 3;
  display: grid;
  place-items: center;
  width: 20px;
  height: 20px;
  border: 1.5px solid var(--disc);
  border-radius: 50%;
  background: var(--disc);
  color: var(--sign);
  font-size: 11px;
  font-weight: 700;
  line-height: 1;
}
.icon svg {
  width: 12px;
  height: 12px;
  fill: none;
  stroke: currentColor;
  stroke-width: 2.2;
  stroke-linecap: round;
  stroke-linejoin: round;
}
.tag, .unlike {
  position: absolute;
  right: 10px;
  padding: 0 7px;
  border-radius: 8px;
  font-size: 10.5px;
  font-weight: 600;
  line-height: 16px;
  color: var(--bright);
}
.tag { top: -11px; background: var(--bad); }
.tag.news { background: var(--busy); }
.unlike { bottom: -13px; background: var(--other); }
.tag:empty, .unlike:empty { display: none; }
.more {
  height: 48px;
  padding: 0 14px;
  border: 1.5px dashed var(--rail);
  border-radius: 11px;
  background: none;
  font-size: 12.5px;
  text-align: left;
}
.more small { display: block; color: var(--dim); }
.more small b { margin-right: 8px; }
.nothing { padding: 12px 14px; color: var(--dim); font-style: italic; }
b.succeeded { color: var(--well); }
b.failed { color: var(--bad); }
b.skipped { color: var(--skip); }
b.queued, b.working { color: var(--busy); }
b.unneeded, b.uncalled, b.waiting, b.unknown { color: var(--quiet); }
#legend {
  position: sticky;
  left: 0;
  display: flex;
  flex-wrap: wrap;
  gap: 4px 18px;
  width: max-content;
  max-width: calc(100vw - 60px);
  margin-top: 30px;
  font-size: 12px;
  color: var(--dim);
}
#legend span { display: flex; align-items: center; gap: 6px; }
#legend .icon, td .icon {
  display: inline-grid;
  flex: none;
  width: 16px;
  height: 16px;
  vertical-align: -3px;
}
#legend svg, td svg { width: 10px; height: 10px; }

/* Downwards: the rail runs down on the left, and forks are indented. */
.down .line, .down .line > li { flex-direction: column; }
.down .line > li + li::before {
  width: 8px;
  height: 18px;
  margin: 0 0 0 18px;
  clip-path: polygon(3px 0, 5px 0, 5px 11px, 8px 11px, 4px 18px, 0 11px, 3px 11px);
}
.down .line > li + li.fork::before {
  height: 12px;
  clip-path: polygon(3px 0, 5px 0, 5px 18px, 3px 18px);
}
.down .line > li[data-state=skipped]::before {
  background: linear-gradient(180deg, transparent 10px, var(--skip) 10px),
    repeating-linear-gradient(180deg, var(--skip) 0 4px, transparent 4px 7px);
}
.down .head > .rail, .down .members > li > .exit { display: none; }
.down .members { padding-left: 21px; }
.down .members > li > .line { padding-bottom: 10px; }
.down .line > li + li.fork > .members > li:first-child > .entry::before {
  border-left-width: 2px;
  border-bottom-left-radius: 13px;
}
.down .line > li + li.fork > .members > li:first-child > .entry::after { top: 0; }
.down .line > li.fork:first-child > .members > li:first-child > .entry::before { left: -21px; }
.down .members.joined > li:last-child > .entry::after { display: block; }
.down .gate { align-self: flex-start; margin: 0 0 0 10px; }
.down .line > li.followed > .box { position: relative; }
.down .line > li.followed > .box::before {
  content: "";
  position: absolute;
  inset: 48px auto 0 21px;
  border-left: 2px solid var(--rail);
}
.down .line > li.followed > .box > .calls { margin-left: 44px; }
.down .task { max-width: min(300px, 74vw); }

/* The column beside the picture: sentences, and the table of the tasks. */
#side {
  display: flex;
  flex-direction: column;
  min-height: 0;
  overflow: auto;
  border-left: 1px solid var(--hair);
  background: var(--card);
}
#told {
  flex: none;
  min-height: 128px;
  padding: 16px 20px 10px;
  border-bottom: 1px solid var(--hair);
}
#told p { overflow-wrap: anywhere; }
.reference {
  border: 0;
  padding: 0;
  background: none;
  font-weight: 600;
  text-align: left;
  text-decoration: underline dotted;
  text-underline-offset: 3px;
  overflow-wrap: anywhere;
}
.other {
  padding: 5px 10px;
  border-left: 3px solid var(--other);
  border-radius: 0 7px 7px 0;
  background: var(--other-face);
  color: var(--other);
}
td .other { padding: 0 5px; border: 0; border-radius: 5px; font-weight: 700; }
#orders { display: inline-flex; margin: 2px 0 8px; }
#orders button { padding: 2px 10px; }
#find { display: flex; align-items: center; gap: 8px; padding: 10px 20px; }
#find > input {
  flex: 1;
  min-width: 60px;
  padding: 4px 10px;
  border: 1px solid var(--hair);
  border-radius: 8px;
  background: var(--page);
}
#find label { font-size: 12.5px; color: var(--dim); white-space: nowrap; }
table { width: 100%; border-collapse: collapse; table-layout: fixed; font-size: 12.5px; }
th {
  position: sticky;
  top: 0;
  z-index: 1;
  padding: 4px 8px;
  border-bottom: 1px solid var(--hair);
  background: var(--card);
  color: var(--dim);
  font-weight: 500;
  text-align: left;
}
td {
  padding: 5px 8px;
  border-bottom: 1px solid var(--hair);
  vertical-align: top;
  overflow-wrap: anywhere;
  unicode-bidi: isolate;
}
th:first-child, td:first-child { width: 38%; padding-left: 20px; }
th:last-child, td:last-child { width: 31%; padding-right: 12px; color: var(--dim); }
tbody tr { cursor: pointer; }
tbody tr:hover { background: var(--page); }
tbody tr.chosen { background: var(--bad-face); }
td .who {
  display: flex;
  gap: 7px;
  width: 100%;
  padding: 0;
  border: 0;
  background: none;
  text-align: left;
}
td .who > .number { flex: none; }
td .who > .name {
  overflow: hidden;
  text-overflow: ellipsis;
  white-space: nowrap;
  font-weight: 500;
}
#notes { padding: 4px 20px 16px; font-size: 12.5px; color: var(--dim); }
#notes ul { padding-left: 18px; list-style: disc; }
#notes li { margin-bottom: 4px; overflow-wrap: anywhere; }

/* The player: its controls, a lane for each worker, and what is so at a step. */
#player {
  grid-column: 1 / -1;
  padding: 10px 20px 12px;
  border-top: 1px solid var(--hair);
  background: var(--card);
}
#controls { display: flex; flex-wrap: wrap; align-items: center; gap: 8px 14px; }
#controls button, #controls select {
  border: 1px solid var(--hair);
  border-radius: 8px;
  background: var(--page);
}
#controls button { padding: 4px 12px; }
#controls select { padding: 4px 6px; }
#controls #play { min-width: 74px; background: var(--ink); color: var(--card); }
#slider { flex: 1; min-width: 140px; accent-color: var(--busy); }
#lanes {
  position: relative;
  display: grid;
  gap: 3px;
  margin-top: 10px;
  padding-left: 74px;
  cursor: pointer;
}
.lane { position: relative; height: 20px; border-radius: 4px; background: var(--page); }
.lane > span {
  position: absolute;
  right: calc(100% + 8px);
  font-size: 11.5px;
  line-height: 20px;
  color: var(--dim);
  white-space: nowrap;
}
.stint {
  position: absolute;
  top: 0;
  bottom: 0;
  overflow: hidden;
  padding-left: 3px;
  border: 1.5px var(--line) var(--edge);
  border-radius: 4px;
  background: var(--face);
  font-size: 10.5px;
  line-height: 17px;
  white-space: nowrap;
}
.stint.copy { border-style: dotted; opacity: .75; }
.stint.thin { border: 0; border-radius: 1px; background: var(--edge); opacity: .75; }
.stint.thin.copy { opacity: .3; }
#now {
  position: absolute;
  top: -3px;
  bottom: -3px;
  width: 2px;
  background: var(--busy);
  pointer-events: none;
}
#moment { padding: 0 20px 14px; }
#queue { display: flex; flex-wrap: wrap; gap: 5px; }
.message {
  padding: 1px 8px;
  border: 1px solid var(--busy);
  border-radius: 7px;
  font-size: 12px;
  color: var(--busy);
}
.message.copy { border-style: dashed; }
#crew, #log { font-size: 12.5px; }
#log li {
  padding: 2px 8px 2px 10px;
  border-left: 3px solid var(--hair);
  color: var(--dim);
  cursor: pointer;
  overflow-wrap: anywhere;
}
#log li.last { border-color: var(--busy); background: var(--busy-face); color: var(--ink); }

/* A phone: one column, in which the answers stay in sight. */
@media (max-width: 860px) {
  body { display: block; height: auto; }
  header { gap: 8px 12px; padding: 10px 14px; }
  .wide-only { display: none; }
  #look { max-width: 100vw; padding: 20px 14px; }
  #side { display: contents; }
  #told {
    position: sticky;
    bottom: 0;
    z-index: 2;
    min-height: 0;
    max-height: 44vh;
    overflow: auto;
    padding: 12px 14px 8px;
    border-top: 1px solid var(--hair);
    background: var(--card);
    box-shadow: 0 -6px 18px #0002;
  }
  #player { position: sticky; bottom: 0; z-index: 3; padding: 8px 14px; }
  .playing #told { bottom: var(--player-height); }
  #find { padding: 10px 14px; }
  #moment, #notes { padding-left: 14px; padding-right: 14px; }
  th:first-child, td:first-child { padding-left: 14px; }
}
@media (prefers-reduced-motion: reduce) { * { transition: none !important; } }
@media print {
  body { display: block; height: auto; background: #fff; }
  * { print-color-adjust: exact; -webkit-print-color-adjust: exact; }
  .switch, #find, #player { display: none !important; }
  #look, #side, #told {
    position: static;
    max-height: none;
    overflow: visible;
    border: 0;
    box-shadow: none;
  }
  tr, .task { break-inside: avoid; }
  th { position: static; }
}
</style>
</head>
<body>
<header>
  <h1 id="title"></h1>
  <p id="facts"></p>
  <div class="switch" role="group" aria-label="view" id="views">
    <button id="view-happened" hidden>What happened</button>
    <button id="view-failures">What if one fails</button>
    <button id="view-run">Step by step</button>
  </div>
  <div class="switch" role="group" aria-label="by whom" id="truths" hidden>
    <button id="truth-meant">What it means</button>
    <button id="truth-celery"></button>
  </div>
  <div class="switch wide-only" role="group" aria-label="direction">
    <button id="across">Across</button>
    <button id="down">Down</button>
  </div>
</header>

<section id="look" aria-label="The canvas">
  <div id="picture"></div>
  <div id="legend" aria-hidden="true"></div>
</section>

<aside id="side">
  <div id="told">
    <h2 id="question"></h2>
    <div id="answer" aria-live="polite"></div>
  </div>
  <div id="moment" hidden>
    <h3>Queue</h3>
    <div id="queue"></div>
    <h3>Workers</h3>
    <ul id="crew"></ul>
    <h3>Steps</h3>
    <ol id="log"></ol>
  </div>
  <div id="tasks">
    <div id="find">
      <input id="search" type="search" placeholder="Find a task" aria-label="Find a task">
      <label><input id="changed-only" type="checkbox"> only what changes</label>
    </div>
    <table>
      <thead><tr><th>task</th><th>becomes</th><th>if it fails</th></tr></thead>
      <tbody id="rows"></tbody>
    </table>
    <div id="notes"></div>
  </div>
</aside>

<section id="player" hidden aria-label="Step by step">
  <div id="controls">
    <button id="to-start">Start</button>
    <button id="back">Back</button>
    <button id="play">Play</button>
    <button id="next">Next</button>
    <input id="slider" type="range" min="0" value="0" aria-label="step">
    <label>workers <select id="workers"></select></label>
    <label><input id="again" type="checkbox"> each message is delivered again</label>
  </div>
  <div id="lanes"><div id="now"></div></div>
</section>

<footer id="foot"></footer>
<noscript>This page draws its picture by its own script. It contacts nothing.</noscript>
<script type="application/json" id="data">"####;

/// What comes after it: the page's script.
pub(crate) const TAIL: &str = r####"</script>
<script>
"use strict";
(() => {
// What the page shows, from the program's answers, a line each: the canvas's line with numbers;
// what becomes of the canvas as it is; runs, each a line that says which it is, and its steps; and
// what becomes of the canvas if each task fails.

// A whole number, as the program wrote it: those of JavaScript have fewer digits.
class Numeral {
  constructor(digits) { this.digits = digits; }
}

const TOKEN = /"(?:[^"\\]|\\.)*"|-?\d[\d.eE+-]*/g;

// Reads JSON. For JSON.parse each text has a t before it, and each number is a text with an n.
function readAnswer(line) {
  const marked = line.replace(TOKEN, (token) =>
    (token.startsWith("\"") ? `"t${token.slice(1)}` : `"n${token}"`));
  return JSON.parse(marked, (_, value) => {
    if (typeof value === "string") {
      return value.startsWith("n") ? new Numeral(value.slice(1)) : value.slice(1);
    }
    if (value === null || typeof value !== "object" || Array.isArray(value)) return value;
    return Object.fromEntries(Object.entries(value).map(([name, it]) => [name.slice(1), it]));
  });
}

// The number of a task or a group, which its identifier ends in; 0 if there is none.
const numberIn = (identifier) => (identifier ? parseInt(identifier.slice(-8), 16) : 0);

// The characters of a task's arguments and of a result that are kept, and the items of a list.
const MOST_KEPT = 300, MOST_ITEMS = 8;
const kept = (text) => {
  const all = [...text];
  return all.length <= MOST_KEPT ? text : `${all.slice(0, MOST_KEPT - 2).join("")}..`;
};

function argumentOf(value) {
  if (value instanceof Numeral) return value.digits;
  return Array.isArray(value) ? `[${value.map(argumentOf).join(", ")}]` : JSON.stringify(value);
}

// The line of a signature. The names and arguments of its tasks are put into a list by numbers.
function lineOf(signature, tasks) {
  const line = { tasks: [] };
  const isChain = signature.subtask_type === "chain";
  for (const it of isChain ? signature.kwargs.tasks : [signature]) {
    if (it.subtask_type === null) {
      line.tasks.push(taskOf(it, tasks));
      continue;
    }
    const { header, body, tasks: members } = it.kwargs;
    line.group = numberIn(it.options.group_id);
    line.members = (body ? header : members).map((member) => lineOf(member, tasks));
    if (body) line.body = lineOf(body, tasks);
  }
  return line;
}

function taskOf(it, tasks) {
  const { link = [], link_error: errors = [], task_id: identifier } = it.options;
  const number = numberIn(identifier);
  const named = Object.entries(it.kwargs).map(([name, value]) => `${name}=${argumentOf(value)}`);
  tasks[number - 1] = [it.task, kept([...it.args.map(argumentOf), ...named].join(", "))];
  return [number, link.map((one) => taskOf(one, tasks)), errors.map((one) => taskOf(one, tasks))];
}

const countGroups = (line) => Number(line.group !== undefined) +
  [...(line.members || []), ...(line.body ? [line.body] : [])]
    .reduce((count, inner) => count + countGroups(inner), 0);

const CHORD_ERROR = /^Dependency \S*([0-9a-fA-F]{8}) raised (.*)$/s;

function failureText({ exc_type: kind, exc_message: message }) {
  const said = kind === "ChordError" && CHORD_ERROR.exec(message.join(" "));
  return said ? `${kind}: Dependency #${numberIn(said[1])} raised ${said[2]}` : kind;
}

// A result as the page shows it: a long list in short.
function resultText(result) {
  if (result === null) return "-";
  if (result instanceof Numeral) return result.digits;
  if (result.exc_type !== undefined) return kept(failureText(result));
  if (!Array.isArray(result)) return kept(argumentOf(result));
  const parts = result.map(resultText);
  if (parts.length > 1 && new Set(parts).size === 1) return `${parts.length} times ${parts[0]}`;
  const more = parts.length > MOST_ITEMS ? ", .." : "";
  return kept(`[${parts.slice(0, MOST_ITEMS).join(", ")}${more}]`);
}

const CODES = { SUCCESS: 0, FAILURE: 2, PENDING: 3 };

// What becomes of the canvas: the ends and rows of the first of these answers, and of each other
// the end and the rows that differ. Those that are alike and follow each other are one.
function becoming([first, ...cases]) {
  const places = new Map();
  const placeOf = ({ status, result }) => {
    if (status === "PENDING") return -1;
    const text = resultText(result);
    if (!places.has(text)) places.set(text, places.size);
    return places.get(text);
  };
  const endIn = ({ canvas }) => [canvas.status, placeOf(canvas)];
  const codeOf = ({ status, ran }) => (status === "FAILURE" && ran ? 1 : CODES[status]);
  const rowOf = (it) => [codeOf(it), placeOf(it), numberIn(it.due_to)];
  const before = { end: endIn(first), rows: first.rows.map(rowOf) };
  const failures = cases.map((it) => {
    const end = endIn(it), changes = [];
    for (const row of it.rows) {
      const number = numberIn(row.task_id), cells = rowOf(row), last = changes[changes.length - 1];
      const isNext = last && last[1] === number - 1 && last.slice(2).join() === cells.join();
      if (cells.join() === before.rows[number - 1].join()) continue;
      if (isNext) last[1] = number;
      else changes.push([number, number, ...cells]);
    }
    return { end, changes };
  });
  return { well: before, failures, values: [...places.keys()] };
}

const LETTERS = {
  publish: "p", take: "t", store: "s", part: "c", read: "r", ack: "a", redeliver: "d",
};

// A step in a word, as the player reads it; null of one that does nothing.
function stepWord(it) {
  const task = numberIn(it.task_id), worker = Number(it.worker.digits).toString(36);
  if (!task) return null;
  const letter = it.stored === "Again" ? "S" : LETTERS[it.ask];
  const part = letter === "c" ? `:${numberIn(it.group_id)}:${it.before.digits}` : "";
  return `${worker}${letter}${task}${part}`;
}

// The runs: each begins with an answer that has no ask.
function playsOf(answers) {
  const plays = [];
  for (const it of answers) {
    if (it.ask === undefined) {
      const workers = Number(it.workers.digits);
      plays.push({ workers, again: it.again, failing: 0, words: [] });
    } else {
      const word = stepWord(it);
      if (word) plays[plays.length - 1].words.push(word);
    }
  }
  return plays.map(({ words, ...play }) => ({ ...play, steps: words.join(" ") }));
}

// What a task fails with in the cases, as words; empty if none is called.
function failsWith(cases) {
  const rows = cases.map((it) => it.rows.find((row) => row.task_id === it.fails && row.ran));
  const row = rows.find((it) => it && it.status === "FAILURE");
  return row ? `; a task fails with ${resultText(row.result)}` : "";
}

function unpacked(text) {
  const [signature, ...answers] = text.trim().split("\n").map(readAnswer);
  const told = answers.filter((it) => it.fails !== undefined);
  const tasks = [], line = lineOf(signature, tasks);
  const isWhole = told.length > tasks.length;
  const omitted = isWhole ? "" : "The canvas is too large for this page to have its runs, and what" +
    " becomes of it if a task fails. `canvas turns --steps` and `canvas run --failures` print them.";
  return {
    title: "canvas",
    tasks,
    line,
    groups: countGroups(line),
    ...becoming(told),
    plays: playsOf(answers.filter((it) => it.fails === undefined)),
    notes: [],
    celery: null,
    happened: null,
    omitted,
    foot: [
      `What it means is what the program canvas answered${failsWith(told.slice(1))}.`,
      "No task was called for this page, and it contacts nothing.",
    ],
  };
}

const data = unpacked(document.getElementById("data").textContent);

// Texts, signs and elements. Text of the canvas enters the document as text only.

const taskCount = data.tasks.length;
const byId = (id) => document.getElementById(id);

// What can't be seen, or turns text round, is shown as a mark.
const UNSEEN = /[\p{Cc}\p{Cf}\p{Cs}\p{Zl}\p{Zp}]/gu;
const shown = (text) => text.replace(UNSEEN, "\ufffd");

const nameOf = (number) => shown(data.tasks[number - 1][0]);
const argumentsOf = (number) => shown(data.tasks[number - 1][1]);
const titleOf = (number) => `#${number} ${nameOf(number)}`;
const valueAt = (place) => (place < 0 ? "" : shown(data.values[place]));
const counted = (count, one, many = one + "s") => `${count} ${count === 1 ? one : many}`;

// The states, in the order of their codes in the data: what becomes of a task by its meaning, on
// Celery's workers, and while a run is played.
const MEANT = ["succeeded", "failed", "skipped", "unneeded"];
const ON_CELERY = ["succeeded", "failed", "skipped", "uncalled", "unknown"];
const HAPPENED = ["succeeded", "failed", "skipped", "waiting", "queued", "working", "unknown"];
const PLAYED = ["waiting", "queued", "working", "succeeded", "failed", "skipped"];

const MEANING = {
  succeeded: "called, succeeds",
  failed: "called, fails",
  skipped: "not called, marked as failed",
  unneeded: "not needed",
  uncalled: "not called, nothing stored",
  unknown: "not known",
  waiting: "not yet",
  queued: "queued",
  working: "at work",
};
const SIGNS = {
  succeeded: "M2 6.4 5 9.4 10 3",
  failed: "M3 3 9 9M9 3 3 9",
  skipped: "M2.5 6H9.5",
  queued: "M3 6h.01M6 6h.01M9 6h.01",
  unknown: "M4 4.6C4 2 8 2 8 4.6 8 6 6 6 6 7.4M6 9.8h.01",
};
const SVG = "http://www.w3.org/2000/svg";

function make(tag, kind, ...inner) {
  const element = document.createElement(tag);
  if (kind) element.className = kind;
  element.append(...inner);
  return element;
}

function icon(state, text = "") {
  const disc = make("span", "icon", text);
  disc.dataset.state = state;
  if (text) return disc;
  const svg = document.createElementNS(SVG, "svg");
  const path = document.createElementNS(SVG, "path");
  svg.setAttribute("viewBox", "0 0 12 12");
  path.setAttribute("d", SIGNS[state] || "");
  svg.append(path);
  disc.append(svg);
  return disc;
}

// An element that is read aloud by these words, which also are its title.
function spoken(element, words) {
  element.setAttribute("role", "img");
  element.setAttribute("aria-label", words);
  element.title = words;
  return element;
}

// A task's name, whose last part is bold.
function nameParts(number) {
  const name = nameOf(number);
  const last = name.lastIndexOf(".") + 1;
  return make("span", "name", make("i", "", name.slice(0, last)), name.slice(last));
}

const paragraph = (...inner) => make("p", "", ...inner);

// Parts with commas and "and" between them, and how many more there are.
function listed(parts, more = 0) {
  const all = more ? [...parts, `${more} more`] : parts;
  const before = (at) => (at === 0 ? "" : at === all.length - 1 ? " and " : ", ");
  return all.flatMap((part, at) => [before(at), part]);
}

// Buttons that lead to tasks: the first six, and how many more there are.
function references(numbers) {
  const buttons = numbers.slice(0, 6).map((number) => {
    const button = make("button", "reference", titleOf(number));
    button.onclick = () => { reveal(number, true); drawn[number].button.focus(); };
    return button;
  });
  return listed(buttons, Math.max(0, numbers.length - 6));
}

// The picture. A line is a row of tasks and forks. A fork is a group, or the header of a chord,
// which ends at a gate. A task has its callbacks below it. All are lists, and read aloud as lists.

const drawn = [];   // for each task's number its elements
const gates = {};   // for each chord's number its gate and size
const folds = [];   // the parts of long lists that can be folded

// The lengths from which a list is folded, and how many items of it stay in sight at its ends.
const LONG_FORK = { most: 12, head: 6, tail: 1 };
const LONG_LINE = { most: 16, head: 6, tail: 2 };

// How many tasks in a fold are in a state, as "3 fail".
const FOLDED = {
  succeeded: "succeed",
  failed: "fail",
  skipped: "not called",
  uncalled: "not called",
};

function drawTask([number, links, errors], when) {
  const button = make("button", "task", icon("waiting"), nameParts(number));
  const note = make("span", "note"), tag = make("span", "tag"), unlike = make("span", "unlike");
  const box = make("div", "box", make("div", "head", button, make("span", "rail")));
  const item = make("li", "stop", box);
  button.append(note, tag, unlike);
  button.id = `task-${number}`;
  button.tabIndex = number === 1 ? 0 : -1;
  button.title = `${titleOf(number)}(${argumentsOf(number)})`;
  button.onclick = () => choose(number);
  if (when) item.prepend(make("span", "wire"), make("span", "when", when));
  drawn[number] = { item, button, note, tag, unlike };
  const calls = [
    ...links.map((task) => drawTask(task, "on success")),
    ...errors.map((task) => drawTask(task, "on failure")),
  ];
  if (calls.length) box.append(make("ul", "calls", ...calls));
  return item;
}

function drawFork({ group, members, body }) {
  const row = (inner) => make("li", "", make("span", "entry"), inner, make("span", "exit"));
  const rows = members.length ? members.map((line) => row(drawLine(line)))
    : [row(make("span", "nothing", "nothing in it"))];
  const isChord = body !== undefined;
  const list = make("ul", isChord ? "members joined" : "members",
    ...folded(rows, LONG_FORK, (item) => row(make("ol", "line", item))));
  list.setAttribute("aria-label", `${isChord ? "chord" : "group"} ${group}`);
  if (!isChord) return make("li", "fork", list);
  gates[group] = { gate: make("span", "gate"), size: members.length };
  return make("li", "fork", list, gates[group].gate);
}

// A line and, since a chord's body goes on with it, what follows each of its chords.
function drawLine(line) {
  const items = [];
  for (let part = line; part; part = part.body) {
    items.push(...part.tasks.map((task) => drawTask(task)));
    if (part.members) items.push(drawFork(part));
  }
  items.slice(0, -1).forEach((item) => item.classList.add("followed"));
  return make("ol", "line", ...folded(items, LONG_LINE, (item) => {
    item.classList.add("followed");
    return item;
  }));
}

// The items of a list, or of a long one its ends, and a button between them that shows the rest.
function folded(items, { most, head, tail }, placed) {
  if (items.length <= most) return items;
  const button = make("button", "more");
  const hidden = items.slice(head, -tail);
  const tasks = hidden.map((item) => [...item.querySelectorAll(".task")].map(numberOf));
  const fold = { button, hidden, tasks, isOpen: false };
  button.onclick = () => setFold(fold, !fold.isOpen);
  folds.push(fold);
  setFold(fold, false);
  const box = make("div", "box", make("div", "head", button, make("span", "rail")));
  return [...items.slice(0, head), placed(make("li", "", box)), ...items.slice(head)];
}

const numberOf = (button) => Number(button.id.slice("task-".length));

// Opens or closes a fold. One that is closed still shows the item that has the task of a number.
function setFold(fold, isOpen, number) {
  fold.isOpen = isOpen;
  fold.hidden.forEach((item, at) => { item.hidden = !isOpen && !fold.tasks[at].includes(number); });
  fold.button.setAttribute("aria-expanded", isOpen);
  countFold(fold);
}

// Says on the button of a fold how many tasks in it are in each state.
function countFold({ button, hidden, tasks, isOpen }) {
  const items = hidden.filter((item) => isOpen || item.hidden).length;
  const counts = {};
  tasks.filter((_, at) => isOpen || hidden[at].hidden).flat().forEach((number) => {
    const state = drawn[number].item.dataset.state || "waiting";
    counts[state] = (counts[state] || 0) + 1;
  });
  const said = JSON.stringify([counts, items, isOpen]);
  if (button.dataset.said === said) return;
  button.dataset.said = said;
  const parts = Object.entries(counts).map(([state, count]) =>
    make("b", state, `${count} ${FOLDED[state] || MEANING[state]}`));
  button.replaceChildren(isOpen ? `fold ${items} again` : `${items} more`,
    make("small", "", ...parts));
}

// Scrolls to a task, and if `opens` shows it beside the fold that it is in.
function reveal(number, opens) {
  const { button } = drawn[number];
  if (opens) {
    folds.filter((fold) => !fold.isOpen && fold.tasks.some((tasks) => tasks.includes(number)))
      .forEach((fold) => setFold(fold, false, number));
  }
  const here = button.getBoundingClientRect();
  const frame = byId("look").getBoundingClientRect();
  const isOut = here.left < frame.left || here.right > frame.right ||
    here.top < Math.max(frame.top, 0) || here.bottom > Math.min(frame.bottom, innerHeight);
  if (here.width && isOut) button.scrollIntoView({ block: "center", inline: "center" });
}

// Shows a task's look: its state, the note below its name, the tag on its edge, the worker that is
// at it, and what Celery does otherwise. What is shown already stays.
function paint(number, look) {
  const { item, button, note, tag, unlike, painted } = drawn[number];
  const { state, said = "", tagged = "", isNews = false, worker = "", other = "" } = look;
  const wanted = [state, said, tagged, isNews, worker, other, number === chosen].join("\0");
  if (painted === wanted) return;
  drawn[number].painted = wanted;
  button.firstChild.replaceWith(icon(state, worker));
  item.dataset.state = state;
  note.textContent = `#${number}${said}`;
  tag.textContent = tagged;
  tag.className = isNews ? "tag news" : "tag";
  unlike.textContent = other && `≠ ${other}`;
  button.setAttribute("aria-label",
    `task ${number} ${nameOf(number)}: ${MEANING[state]}${said}${other && `; ${other}`}`);
  button.setAttribute("aria-pressed", number === chosen);
}

// How many parts each chord waits for.
function showGates() {
  for (const { gate, size } of Object.values(gates)) {
    gate.dataset.count = "";
    gate.textContent = `waits for ${size}`;
  }
}

function showLegend(states) {
  byId("legend").replaceChildren(...states.map((state) => {
    const isNumbered = state === "working" && view === "run";
    return make("span", "", icon(state, isNumbered ? "1" : ""),
      isNumbered ? "at work, by worker 1" : MEANING[state]);
  }));
}

// What if one fails. A row is a task's state, the place of its value, and to whom it is due. The
// rows of a failure are those of the canvas as it is, but for the ranges that differ.

function rowsOf(failing) {
  const rows = data.well.rows.slice();
  if (failing && !data.omitted) {
    const { changes } = data.failures[failing - 1];
    for (const [from, to, ...row] of changes) rows.fill(row, from - 1, to);
  }
  return rows;
}

const well = rowsOf(0);
const isCalled = (row) => row[0] < 2;
const endOf = (failing) => (failing && !data.omitted ? data.failures[failing - 1] : data.well).end;
const isSame = (one, other) => one === other || one.join() === other.join();

function becomes([state, place, due]) {
  if (MEANT[state] === "skipped") return `due to #${due}`;
  return MEANT[state] === "unneeded" ? "not needed" : valueAt(place) || "succeeds";
}

// The note of a task: its arguments if its value isn't known, or else what becomes of it.
function noteOf(number, row) {
  if (MEANT[row[0]] !== "succeeded") return ` · ${becomes(row)}`;
  if (row[1] >= 0) return ` → ${valueAt(row[1])}`;
  return argumentsOf(number) && ` (${argumentsOf(number)})`;
}

// The numbers of the tasks that a failure changes, by how it changes them.
function changesOf(failing) {
  const found = { called: [], lost: [], unneeded: [], other: [], same: 0 };
  rowsOf(failing).forEach((row, at) => {
    const number = at + 1;
    if (isSame(row, well[at])) found.same += number !== failing;
    else if (isCalled(row) && !isCalled(well[at])) found.called.push(number);
    else if (isCalled(well[at]) && MEANT[row[0]] === "skipped") found.lost.push(number);
    else if (isCalled(well[at]) && MEANT[row[0]] === "unneeded") found.unneeded.push(number);
    else if (number !== failing) found.other.push(number);
  });
  return found;
}

// How the canvas ends, as the rest of a sentence whose first word is the subject's article.
function ending(article, [status, place]) {
  const value = valueAt(place);
  const subject = `${article} canvas `;
  if (status === "PENDING") return [subject, "stays pending."];
  if (status === "FAILURE") return [subject, make("b", "failed", "fails"), `: ${value}.`];
  const result = value ? [" with ", make("b", "", value)] : [];
  return [subject, make("b", "succeeded", "succeeds"), ...result, "."];
}

function asItIs() {
  const end = paragraph(...ending("The", endOf(0)));
  if (!taskCount) return [end, paragraph("It has no tasks.")];
  const uncalled = well.filter((row) => !isCalled(row)).length;
  const called = counted(taskCount - uncalled, "task is", "tasks are");
  const all = taskCount === 1 ? "Its task is called." : `All ${taskCount} tasks are called.`;
  return [
    end,
    paragraph(uncalled ? `${called} called, ${uncalled} not.` : all),
    paragraph(data.omitted || "Choose a task to see what becomes of the canvas if it fails."),
  ];
}

function ifItFails(failing) {
  if (!isCalled(well[failing - 1])) {
    return [paragraph("It isn't called, so it can't fail. ", ...ending("The", endOf(failing)))];
  }
  if (data.omitted) return [paragraph(data.omitted)];
  const { called, lost, unneeded, other, same } = changesOf(failing);
  const isLikeBefore = isSame(endOf(failing), endOf(0));
  const said = [paragraph(...ending(isLikeBefore ? "Even then the" : "Then the", endOf(failing)))];
  const say = (before, numbers) => {
    if (numbers.length) said.push(paragraph(before, ...references(numbers), "."));
  };
  say("Called only now: ", called);
  say("No longer called, and marked as failed: ", lost);
  say("No longer needed: ", unneeded);
  say("With another end: ", other);
  if (same) said.push(paragraph(`${counted(same, "other task is", "other tasks are")} as before.`));
  return said;
}

// What a row of the table says of the task's failure.
function inShort(failing) {
  if (!isCalled(well[failing - 1])) return ["isn't called"];
  if (data.omitted) return ["isn't kept"];
  const { called, lost } = changesOf(failing);
  const fails = endOf(failing)[0] === "FAILURE";
  const words = fails ? "canvas fails" : "canvas succeeds";
  const counts = [];
  if (lost.length) counts.push(`${lost.length} not called`);
  if (called.length) counts.push(`${called.length} more`);
  const sign = spoken(icon(fails ? "failed" : "succeeded"), `the ${words}`);
  return [sign, ...celerySign(failing), ` ${counts.join(", ") || words}`];
}

function lookOf(number, row) {
  const isNew = isCalled(row) && !isCalled(well[number - 1]) && number !== chosen;
  const fails = number === chosen && MEANT[row[0]] === "failed";
  return {
    state: MEANT[row[0]],
    said: noteOf(number, row),
    tagged: fails ? "fails" : isNew ? "only now" : "",
    isNews: isNew,
    other: celeryDoes(number, row),
  };
}

function showFailure() {
  const rows = rowsOf(chosen);
  const isCelerys = truth === "celery";
  rows.forEach((row, at) => {
    const number = at + 1;
    const look = isCelerys ? lookOnCelery(number, row) : lookOf(number, row);
    paint(number, look);
    const becoming = isCelerys ? look.said.replace(/^ · /, "") : becomes(row);
    fillRow(number, look.state, becoming, number === chosen || !isSame(row, well[at]));
  });
  showGates();
  const isClean = well.every((row) => ["succeeded", "unneeded"].includes(MEANT[row[0]]));
  byId("question").textContent = chosen ? `What if ${titleOf(chosen)} fails?`
    : isClean ? "When nothing fails" : "As it is";
  const told = chosen ? ifItFails(chosen) : asItIs();
  byId("answer").replaceChildren(...(isCelerys ? toldOfCelery() : [...told, ...celeryNote()]));
}

// What the installed Celery does with the same canvas. Its code was asked if the failing tasks end
// before the others, and if they end after them; if it does the same in both, there is one run.

let order = 0;  // which of the two is looked at

const CELERY_WORDS = {
  succeeded: "succeeds",
  failed: "fails",
  skipped: "marked as failed",
  uncalled: "not called",
  unknown: "in one message of a map",
};

const celeryCase = () => (data.celery.cases ? data.celery.cases[chosen] : null);
const celeryName = () => `Celery ${data.celery.version}`;
const stateIn = (run, number) => ON_CELERY[Number(run.states[number - 1])];
const isCalledIn = (run, number) => ["succeeded", "failed"].includes(stateIn(run, number));

// How Celery's call of a task differs from what the canvas means, in few words, or an empty text.
function celeryDoes(number, row) {
  const runs = data.celery && celeryCase() ? celeryCase().runs : [];
  const unlike = runs.filter((it) => stateIn(it, number) !== "unknown" &&
    isCalledIn(it, number) !== isCalled(row));
  if (!unlike.length) return "";
  const may = unlike.length < runs.length;
  if (isCalled(row)) return may ? "Celery may not call it" : "Celery doesn't call it";
  return may ? "Celery may call it" : "Celery calls it";
}

function celeryNote() {
  const note = data.celery && celeryCase() && celeryCase().note;
  return note ? [make("p", "other", `≠ ${shown(note)}.`)] : [];
}

// The sign in the table of a failure in which Celery does otherwise.
function celerySign(failing) {
  const found = data.celery && data.celery.cases ? data.celery.cases[failing] : null;
  return found && found.note ? [" ", spoken(make("span", "other", "≠"), shown(found.note))] : [];
}

function lookOnCelery(number, row) {
  const run = celeryCase().runs[order] || celeryCase().runs[0];
  const state = stateIn(run, number);
  const shared = run.shared[number];
  const said = shared ? `${shared[0]} calls of ${shared[1]} alike` : CELERY_WORDS[state];
  const differs = state !== "unknown" && isCalledIn(run, number) !== isCalled(row);
  const meant = isCalled(row) ? "means: called" : "means: not called";
  return { state, said: ` · ${said}`, other: differs ? meant : "" };
}

// The two orders, to choose from.
function orderButtons() {
  const buttons = ["the failure comes first", "the failure comes last"].map((words, at) => {
    const button = make("button", "", words);
    button.setAttribute("aria-pressed", at === order);
    button.onclick = () => { order = at; show(); };
    return button;
  });
  const group = make("div", "switch", ...buttons);
  group.id = "orders";
  return group;
}

function toldOfCelery() {
  const { runs, note } = celeryCase();
  const run = runs[order] || runs[0];
  const called = [...run.states].filter((_, at) => isCalledIn(run, at + 1)).length;
  const said = [paragraph(`On ${celeryName()}, ${shown(run.end)}.`)];
  said.push(paragraph(`${counted(called, "task is", "tasks are")} called.`));
  if (runs.length > 1) said.push(orderButtons());
  const alike = paragraph("It calls what the canvas means, and ends as it means.");
  said.push(...(note ? celeryNote() : [alike]));
  if (!chosen) said.push(paragraph("Choose a task to see what Celery does if it fails."));
  return said;
}

// What happened in a run on Celery's workers, as far as results are stored. A row is a state and
// what is shown of it.

const HAPPENED_WORDS = {
  succeeded: "succeeded",
  failed: "failed",
  skipped: "not called, marked as failed",
  waiting: "without a result",
  queued: "queued",
  working: "at work",
  unknown: "with a result that can't be read",
};

function showHappened() {
  const counts = {};
  data.happened.rows.forEach(([code, told], at) => {
    const state = HAPPENED[code];
    const text = shown(told);
    const said = state === "succeeded" ? ` → ${text}` : ` · ${text}`;
    counts[state] = (counts[state] || 0) + 1;
    paint(at + 1, { state, said: text && said });
    fillRow(at + 1, state, text, false);
  });
  showGates();
  const parts = HAPPENED.filter((state) => counts[state])
    .map((state) => make("b", state, `${counts[state]} ${HAPPENED_WORDS[state]}`));
  byId("question").textContent = "What happened";
  byId("answer").replaceChildren(
    paragraph(...listed(parts), "."),
    paragraph(shown(data.happened.end)),
    ...data.happened.notes.map((note) => paragraph(shown(note))));
}

// Step by step. A run is a list of steps, each of a worker, where worker 0 is the start. Kinds:
// p publishes a message, t takes one, s stores a result, S finds one stored already, c returns a
// part to a chord, r reads a result, a acknowledges a message, d delivers a message again.

let run = null;
let step = 0;
let timer = 0;

// While a run is played, the milliseconds from step to step, and those of the whole.
const FASTEST = 40, SLOWEST = 700, WHOLE = 40000;
const STEP = /^(\w)(\w)(\d+)(?::(\d+):(\d+))?$/;

function stepOf(word) {
  const [, worker, kind, ...numbers] = STEP.exec(word);
  const [task, group, before] = numbers.map(Number);
  return { worker: parseInt(worker, 36), kind, task, group, before };
}

// The runs to choose from: those in which the chosen task fails, or else those in which none does.
function runsNow() {
  const failing = data.plays.filter((play) => play.failing === chosen);
  return failing.length ? failing : data.plays.filter((play) => play.failing === 0);
}

function loadRun(at) {
  const runs = runsNow();
  const counts = [...new Set(runs.map((it) => it.workers))];
  const workers = [Number(byId("workers").value), 2].find((it) => counts.includes(it)) || counts[0];
  const mine = runs.filter((it) => it.workers === workers);
  const play = mine.find((it) => it.again === byId("again").checked) || mine[0];
  byId("workers").replaceChildren(...counts.map((it) => new Option(it, it, false, it === workers)));
  byId("again").checked = play.again;
  byId("again").disabled = !runs.some((it) => it.again);
  const steps = play.steps.split(" ").filter(Boolean).map(stepOf);
  const own = steps.findIndex((it) => it.worker > 0);
  const from = own < 0 ? steps.length : own;
  run = { ...play, rows: rowsOf(play.failing) };
  run.start = steps.slice(0, from);
  run.steps = steps.slice(from);
  byId("slider").max = run.steps.length;
  drawLanes();
  seek(at);
}

// A lane for each worker, with what it is at from the take to the acknowledgement.
function drawLanes() {
  const lanes = Array.from({ length: run.workers }, (_, at) =>
    make("div", "lane", make("span", "", `worker ${at + 1}`)));
  const taken = {}, done = new Set();
  run.steps.forEach(({ worker, kind, task }, at) => {
    if (kind === "t") taken[worker] = at;
    if (kind !== "a") return;
    const share = (at + 1 - taken[worker]) / run.steps.length;
    const stint = make("div", "stint", share < 0.03 ? "" : `#${task}`);
    stint.classList.toggle("thin", share < 0.015);
    stint.classList.toggle("copy", done.has(task));
    stint.dataset.state = MEANT[run.rows[task - 1][0]];
    stint.title = titleOf(task);
    stint.style.left = `${(100 * taken[worker]) / run.steps.length}%`;
    stint.style.width = `${100 * share}%`;
    lanes[worker - 1].append(stint);
    done.add(task);
  });
  byId("lanes").replaceChildren(...lanes, byId("now"));
  document.body.style.setProperty("--player-height", `${byId("player").offsetHeight}px`);
}

const SENTENCES = {
  p: (who, task) => `${who} publishes ${task}.`,
  t: (who, task) => `${who} takes ${task} off the queue.`,
  S: (who, task) => `${who} has run ${task} once more. A result is stored, so nothing follows.`,
  r: (who, task) => `${who} reads the result of ${task}.`,
  a: (who, task) => `${who} acknowledges ${task}.`,
  d: (who, task) => `${task} is delivered again: a copy goes to the end of the queue.`,
  s: (who, task, { task: number }) => {
    const [code, place] = run.rows[number - 1];
    const value = valueAt(place);
    const stores = {
      skipped: `stores ${task} as failed, without a call: ${value}.`,
      failed: `has run ${task}, and stores its failure, ${value}.`,
      succeeded: `has run ${task}, and stores that it succeeded${value && `, with ${value}`}.`,
    };
    return `${who} ${stores[MEANT[code]]}`;
  },
  c: (who, task, { group, before }) => {
    const { size } = gates[group];
    const end = before + 1 === size ? ", so the header is complete" : "";
    return `${who} returns the part of ${task} to chord ${group}: ${before + 1} of ${size}${end}.`;
  },
};

function sentenceOf(it) {
  return SENTENCES[it.kind](it.worker ? `Worker ${it.worker}` : "The start", titleOf(it.task), it);
}

// What is queued, held, stored and counted after a number of steps.
function momentAfter(count) {
  const states = Array(taskCount + 1).fill("waiting");
  const queue = [], held = {}, parts = {}, workers = {};
  const stored = new Set();
  const apply = ({ worker, kind, task, group, before }) => {
    if (kind === "p" || kind === "d") queue.push({ task, isCopy: kind === "d" });
    if (kind === "p") states[task] = "queued";
    if (kind === "t") { held[worker] = queue.shift(); workers[task] = worker; }
    if (kind === "t" && !stored.has(task)) states[task] = "working";
    if (kind === "s") { stored.add(task); states[task] = MEANT[run.rows[task - 1][0]]; }
    if (kind === "c") parts[group] = before + 1;
    if (kind === "a") { delete held[worker]; delete workers[task]; }
  };
  run.start.forEach(apply);
  for (let at = 0; at < count; at++) apply(run.steps[at]);
  return { states, queue, held, parts, workers };
}

function lookAt(moment, number) {
  const state = moment.states[number], worker = moment.workers[number], given = argumentsOf(number);
  if (state === "working") return { state, said: ` · worker ${worker}`, worker: String(worker) };
  if (state === "queued") return { state, said: " · queued" };
  if (state === "waiting") return { state, said: given && ` (${given})` };
  const said = noteOf(number, run.rows[number - 1]);
  return { state, said, isNews: true, tagged: worker ? `worker ${worker}` : "" };
}

// Shows the run after a number of its steps.
function seek(at) {
  const total = run.steps.length;
  step = Math.max(0, Math.min(at, total));
  const moment = momentAfter(step);
  const last = run.steps[step - 1];
  for (let number = 1; number <= taskCount; number++) paint(number, lookAt(moment, number));
  for (const [group, { gate, size }] of Object.entries(gates)) {
    const count = moment.parts[group] || 0;
    gate.textContent = `${count} of ${size}`;
    gate.dataset.count = !count ? "" : count === size ? "all" : "some";
  }
  folds.forEach(countFold);
  byId("slider").value = step;
  byId("slider").setAttribute("aria-valuetext", `step ${step} of ${total}`);
  byId("now").style.left = `calc(74px + (100% - 74px) * ${total ? step / total : 0})`;
  tellStep(last, total);
  tellMoment(moment, total);
  document.querySelectorAll(".task[data-now]").forEach((button) => { delete button.dataset.now; });
  if (last) {
    drawn[last.task].button.dataset.now = "";
    reveal(last.task, false);
  }
  if (step === total) halt();
  keepAddress();
}

function tellStep(last, total) {
  byId("question").textContent = step ? `Step ${step} of ${total}` : `A run of ${total} steps`;
  const begun = `The start has published ${counted(run.start.length, "message")}.`;
  const said = [paragraph(last ? sentenceOf(last) : begun)];
  if (run.failing) said.push(paragraph("In this run ", ...references([run.failing]), " fails."));
  else if (chosen) said.push(paragraph(`No run in which #${chosen} fails is kept on this page.`));
  else if (!step && data.plays.some((it) => it.failing)) {
    said.push(paragraph("Choose a task to play a run in which it fails."));
  }
  if (step === total) said.push(paragraph(...ending("All is done: the", endOf(run.failing))));
  byId("answer").replaceChildren(...said);
}

function tellMoment({ queue, held }, total) {
  const messages = queue.slice(0, 12).map(({ task, isCopy }) =>
    make("span", isCopy ? "message copy" : "message", titleOf(task)));
  const more = queue.length > 12 ? `and ${queue.length - 12} more` : queue.length ? "" : "empty";
  byId("queue").replaceChildren(...messages, more);
  byId("crew").replaceChildren(...Array.from({ length: run.workers }, (_, at) => {
    const message = held[at + 1];
    const worker = make("b", message ? "working" : "waiting", `${at + 1} `);
    if (!message) return make("li", "", worker, "has nothing");
    const has = message.isCopy ? "has a copy of " : "has ";
    return make("li", "", worker, has, titleOf(message.task));
  }));
  const from = Math.max(0, Math.min(step - 6, total - 14));
  byId("log").replaceChildren(...run.steps.slice(from, from + 14).map((it, at) => {
    const item = make("li", from + at === step - 1 ? "last" : "", sentenceOf(it));
    item.onclick = () => { halt(); seek(from + at + 1); };
    return item;
  }));
}

function halt() {
  clearInterval(timer);
  timer = 0;
  byId("play").textContent = "Play";
}

function playOrPause() {
  if (timer) return halt();
  const total = run.steps.length;
  const stride = Math.max(1, Math.round(total / 1200));
  if (step === total) seek(0);
  byId("play").textContent = "Pause";
  const pause = Math.max(FASTEST, Math.min(SLOWEST, WHOLE / total));
  timer = setInterval(() => seek(step + stride), pause);
}

// The page: its views, its table, its address and its keys.

let view = "failures";  // or "run", or "happened"
let truth = "meant";    // or "celery"
let chosen = 0;         // the number of the task that is chosen, or 0
const tableRows = [];

function press(id, isPressed) { byId(id).setAttribute("aria-pressed", isPressed); }

function show() {
  if (view === "run") return;
  if (view === "happened") showHappened();
  else showFailure();
  folds.forEach(countFold);
  filterRows();
  keepAddress();
}

function setView(next, at = 0) {
  halt();
  view = next === "run" && !data.plays.length ? "failures" : next;
  if (view === "happened") chosen = 0;
  const isRun = view === "run", isFailures = view === "failures";
  press("view-failures", isFailures);
  press("view-run", isRun);
  press("view-happened", view === "happened");
  press("truth-meant", truth === "meant");
  press("truth-celery", truth === "celery");
  byId("player").hidden = byId("moment").hidden = !isRun;
  byId("tasks").hidden = isRun;
  byId("truths").hidden = !isFailures || !data.celery || !data.celery.cases;
  document.body.classList.toggle("playing", isRun);
  setLegend();
  if (isRun) loadRun(at);
  else show();
}

function setTruth(next) {
  truth = next;
  setView("failures");
}

function setLegend() {
  const isCelerys = view === "failures" && truth === "celery";
  showLegend({ run: PLAYED, happened: HAPPENED, failures: isCelerys ? ON_CELERY : MEANT }[view]);
}

// Chooses a task, or none if it is chosen already.
function choose(number) {
  chosen = number === chosen ? 0 : number;
  setView(view === "happened" ? "failures" : view);
  if (chosen) reveal(chosen, true);
}

function drawTable() {
  for (let number = 1; number <= taskCount; number++) {
    const label = make("span", "number", `#${number}`);
    const who = make("button", "who", icon("waiting"), label, nameParts(number));
    const last = make("td", "", ...inShort(number));
    who.title = nameOf(number);
    tableRows[number] = make("tr", "", make("td", "", who), make("td"), last);
    tableRows[number].onclick = () => choose(number);
  }
  byId("rows").append(...tableRows.slice(1));
  const notes = data.notes.map(([kind, task, note, count]) => make("li", "",
    `${shown(task)}: ${shown(note)}${count > 1 ? `, ${count} times` : ""} (${shown(kind)})`));
  if (notes.length) byId("notes").append(make("h3", "", "Good to know"), make("ul", "", ...notes));
}

function fillRow(number, state, text, isChanged) {
  const row = tableRows[number];
  row.classList.toggle("chosen", number === chosen);
  row.isChanged = isChanged;
  const filled = `${state} ${text}`;
  if (row.filled === filled) return;
  row.filled = filled;
  row.querySelector(".icon").replaceWith(spoken(icon(state), MEANING[state]));
  row.cells[1].textContent = text;
}

function filterRows() {
  const text = byId("search").value.trim().toLowerCase();
  const changedOnly = byId("changed-only").checked && chosen > 0;
  for (let number = 1; number <= taskCount; number++) {
    const isFound = titleOf(number).toLowerCase().includes(text);
    tableRows[number].hidden = !isFound || (changedOnly && !tableRows[number].isChanged);
  }
}

// What is looked at is in the address, so that it can be kept and sent. Browsers refuse hundreds of
// changes in a row, so a change waits a little.
let keeping = 0;

function keepAddress() {
  clearTimeout(keeping);
  keeping = setTimeout(() => {
    if (timer) return;
    // a page in a frame has no address
    try { history.replaceState(null, "", addressNow()); } catch (error) { keeping = 0; }
  }, 120);
}

function addressNow() {
  if (view === "run") return `#run=${run.workers},${Number(run.again)},${chosen},${step}`;
  if (view === "happened") return "#happened=1";
  if (truth === "celery") return `#celery=${chosen}`;
  return chosen ? `#fails=${chosen}` : "#";
}

function followAddress() {
  const [, word, text] = /^#(fails|celery|run|happened)=([\d,]+)$/.exec(location.hash) || [];
  const numbers = (text || "").split(",").map(Number);
  const [workers, again, failing, at] = numbers;
  const wanted = word === "run" ? failing : word === "happened" ? 0 : numbers[0];
  chosen = wanted >= 1 && wanted <= taskCount ? wanted : 0;
  if (word === "run") {
    byId("workers").replaceChildren(new Option(workers, workers, true, true));
    byId("again").checked = again === 1;
    setView("run", at || 0);
  } else {
    truth = word === "celery" && data.celery && data.celery.cases ? "celery" : "meant";
    setView(data.happened && (!word || word === "happened") ? "happened" : "failures");
  }
  if (chosen) reveal(chosen, true);
}

function turn(isDown) {
  byId("picture").classList.toggle("down", isDown);
  press("down", isDown);
  press("across", !isDown);
}

// Moves the focus to the next task that is in sight.
function moveFocus(button, way) {
  let number = numberOf(button) + way;
  while (drawn[number] && !drawn[number].button.offsetParent) number += way;
  if (!drawn[number]) return;
  button.tabIndex = -1;
  drawn[number].button.tabIndex = 0;
  drawn[number].button.focus();
}

function typed(event) {
  const { key, target } = event;
  const way = { ArrowRight: 1, ArrowDown: 1, ArrowLeft: -1, ArrowUp: -1 }[key];
  if (event.ctrlKey || event.altKey || event.metaKey || /INPUT|SELECT/.test(target.tagName)) return;
  if (key === "Escape") {
    chosen = 0;
    setView(view);
  } else if (way && target.classList.contains("task")) {
    moveFocus(target, way);
  } else if (view === "run" && ["ArrowRight", "ArrowLeft"].includes(key)) {
    halt();
    seek(step + way);
  } else if (view === "run" && ["Home", "End"].includes(key)) {
    halt();
    seek(key === "Home" ? 0 : Infinity);
  } else if (view === "run" && key === " " && target.tagName !== "BUTTON") {
    playOrPause();
  } else {
    return;
  }
  event.preventDefault();
}

function seekBy(event) {
  const { left, width } = byId("lanes").getBoundingClientRect();
  halt();
  seek(Math.round(((event.clientX - left - 74) / (width - 74)) * run.steps.length));
}

function listen() {
  const clicked = {
    "view-failures": () => setView("failures"),
    "view-run": () => setView("run"),
    "view-happened": () => setView("happened"),
    "truth-meant": () => setTruth("meant"),
    "truth-celery": () => setTruth("celery"),
    across: () => turn(false),
    down: () => turn(true),
    play: playOrPause,
    "to-start": () => { halt(); seek(0); },
    back: () => { halt(); seek(step - 1); },
    next: () => { halt(); seek(step + 1); },
    lanes: seekBy,
  };
  for (const [id, act] of Object.entries(clicked)) byId(id).onclick = act;
  byId("search").oninput = byId("changed-only").onchange = filterRows;
  byId("search").onkeydown = ({ key }) => {
    const number = tableRows.findIndex((row) => row && !row.hidden);
    if (key === "Enter" && number > 0 && number !== chosen) choose(number);
  };
  byId("slider").oninput = () => { halt(); seek(Number(byId("slider").value)); };
  byId("workers").onchange = byId("again").onchange = () => { halt(); loadRun(0); };
  document.addEventListener("keydown", typed);
  addEventListener("hashchange", followAddress);
  addEventListener("beforeprint", () => { if (byId("picture").scrollWidth > 900) turn(true); });
}

function begin() {
  document.title = byId("title").textContent = shown(data.title);
  byId("picture").append(drawLine(data.line));
  const chords = Object.keys(gates).length;
  const facts = [counted(taskCount, "task"), chords && counted(chords, "chord"),
    data.groups > chords && counted(data.groups - chords, "group")];
  byId("facts").textContent = facts.filter(Boolean).join(" · ");
  byId("foot").textContent = data.foot.map(shown).join(" ");
  byId("view-happened").hidden = !data.happened;
  byId("view-run").hidden = !data.plays.length;
  byId("views").hidden = !data.happened && !data.plays.length;
  if (data.celery) byId("truth-celery").textContent = shown(celeryName());
  byId("changed-only").checked = taskCount > 40;
  drawTable();
  listen();
  turn(false);
  followAddress();
  if (byId("picture").scrollWidth > byId("look").clientWidth * 1.5 || innerWidth < 700) turn(true);
  if (chosen) reveal(chosen, true);
}

begin();
})();
</script>
</body>
</html>
"####;

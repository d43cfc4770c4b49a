//! Reading stubs from texts, as `shop.charge=5`.

ghost use Rattle.std.specs.Prelude.{◌≡◌, ◌≢◌, Ok, Err, IfOk, IfErr, map};
ghost use Rattle.std.specs.Option.{option_map};
ghost use Rattle.canvas_adapt.specs.StubTexts.{added, is_remark, split_text, stub_reading, stubs_reading};
ghost use Rattle.canvas_adapt.specs.declared.stubs.fault.StubFault.TheVariants.{Memory};

use crate::stubs::stub::stub_of;
use crate::stubs::word::read_word;
use crate::{BadStub, Stub, StubFault};
use canvas_semantics::MOST_TASKS;
use canvas_task::{TextOf, name_ok};
use std::alloc::Global;

/// The greatest number of stubs: as many as a canvas has tasks.
pub const MOST_STUBS: usize = MOST_TASKS as usize;

/// Splits a text at its last `=`, since a name may contain one, and no word does.
pub(crate) fn split(text: &str) -> Option<(&str, &str)>
    ensures { option_map (λ x. (x.0.now, x.1.now)) result ≡ split_text text.now }
{
    text.rsplit_once('=')
}

/// Reads a stub: a name, `=` and a word. The last `=` ends the name. A word is that of a built-in
/// task, `raise:` and an exception, or a whole number from -2^60 to 2^60.
pub fn read_stub(alloc: Global, text: &str) -> Result<Stub, StubFault>
    ensures ok { IfOk result (λ stub. stub_reading text.now ≡ Ok stub) }
    ensures err { IfErr result (λ fault. fault ≢ Memory → stub_reading text.now ≡ Err fault) }
{
    let Some((name, word)) = split(text) else {
        return Err(StubFault::NoWord);
    };
    if !name_ok(name) {
        return Err(StubFault::BadName);
    }
    let does = read_word(word)?;
    let name = TextOf::of(String::from_str(alloc, name)?);
    Ok(Stub { name, does })
}

/// Returns whether a text is a remark, which gives no stub.
fn is_remark(text: &str) -> bool
    ensures { result ≡ is_remark text.now }
{
    text.is_empty() || text.as_bytes()[0] == b'#'
}

/// Appends the stub of one more text.
fn add_text(alloc: Global, stubs: &mut Vec<Stub>, text: &str) -> Result<(), StubFault>
    ensures ok { IfOk result (λ _. added stubs.old.items text.now ≡ Ok stubs.new.items) }
    ensures err { IfErr result (λ fault. fault ≢ Memory
        → added stubs.old.items text.now ≡ Err fault) }
{
    if is_remark(text) {
        return Ok(());
    }
    let stub = read_stub(alloc, text)?;
    if stub_of(stub.name.get().as_str(), stubs).is_some() {
        return Err(StubFault::Doubled);
    }
    if stubs.len() >= MOST_STUBS {
        return Err(StubFault::TooMany);
    }
    stubs.push(stub)?;
    Ok(())
}

/// Reads one stub from each text, as `read_stub` does. An empty text and one that begins with `#`
/// give none. A name may occur only once.
pub fn read_stubs(alloc: Global, texts: &[&str]) -> Result<Vec<Stub>, BadStub>
    ensures ok { IfOk result (λ stubs.
        stubs_reading (map (λ t. t.now) texts.now) ≡ Ok stubs.items) }
    ensures err { IfErr result (λ bad. bad.fault ≢ Memory
        → stubs_reading (map (λ t. t.now) texts.now) ≡ Err bad) }
{
    let mut stubs = Vec::new(alloc);
    for (before, text) in texts.iter().enumerate() {
        match add_text(alloc, &mut stubs, text) {
            Ok(()) => {}
            Err(fault) => return Err(BadStub { before, fault }),
        }
    }
    Ok(stubs)
}

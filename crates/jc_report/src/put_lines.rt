//! Putting a text, line by line.
ghost use Rattle.std.specs.Prelude.{◌≡◌, ◌≤◌, ◌<◌, ◌++◌, length, OnOk, OnErr, IsErrOf};
ghost use Rattle.jc_base.specs.Causes.{Rose};
ghost use Rattle.jc_base.specs.Outside.{TakesAll, TakesFront};

use jc_base::sink::{Sink, SinkError};

// The first line, its line end with it, and what follows.
fn split_line(text: &[u8]) -> (&[u8], &[u8])
    requires { 0 < length text.now }
    ensures whole { text.now ≡ result.0.now ++ result.1.now }
    ensures shorter { length result.1.now < length text.now }
{
    for (i, byte) in text.iter().enumerate() {
        if *byte == b'\n' {
            return text.split_at(i + 1);
        }
    }
    text.split_at(text.len())
}

/// Puts a text that stands whole, one call for each line with its line end. Nothing is put after a failed
/// call.
///
/// # Errors
///
/// Those of the call.
pub fn put_lines<O: Sink>(text: &[u8], out: &mut O) -> Result<(), SinkError>
    ensures ok { OnOk result (TakesAll (O.state out.old).taken (O.state out.new).taken text.now) }
    ensures err { OnErr result (TakesFront (O.state out.old).taken (O.state out.new).taken text.now) }
    ensures never_falls { (O.state out.old).faults ≤ (O.state out.new).faults }
    ensures cause { IsErrOf result SinkError.Fault → Rose (O.state out.old).faults (O.state out.new).faults }
{
    let mut rest = text;
    while !rest.is_empty() {
        let (line, next) = split_line(rest);
        match out.put(line) {
            Ok(()) => rest = next,
            Err(error) => return Err(error),
        }
    }
    Ok(())
}

//! Writing a text to its end.

ghost use Rattle.std.specs.Prelude.{◌≡◌, ◌≤◌, OnOk, OnErr};
ghost use Rattle.std.specs.Io.KnownBytes.{Appends};
ghost use Rattle.hy_outside.specs.Outside.{HasCause};
ghost use Rattle.hydra_top.specs.Writing.{AppendsFront};

use hy_outside::{Failed, Sink};

/// Writes all of the text, each time all that is left of it. It takes no memory. After a failed
/// write the sink has taken a front of the text.
pub fn write_all<K: Sink>(out: &mut K, text: &[u8]) -> Result<(), Failed>
    ensures written { OnOk result (Appends (K.held out.old) (K.held out.new) text.now) }
    ensures begun { OnErr result (AppendsFront (K.held out.old) (K.held out.new) text.now) }
    ensures cause { HasCause (K.faults out.old) (K.faults out.new) result }
{
    let mut at = 0;
    while at < text.len() {
        let count = out.write(&text[at..])?;
        at += count;
    }
    Ok(())
}

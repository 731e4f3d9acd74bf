ghost use Rattle.std.specs.Prelude.{◌≡◌, ◌≤◌, ◌<◌, length, IfErr};
ghost use Rattle.bist_host.specs.Files.{OnlyReads};
ghost use Rattle.bist_endings.specs.Then.{items_of};
ghost use Rattle.bist_endings.specs.Words.{word};
ghost use Rattle.bist_inputs.specs.Inputs.{FileMarch, GivesBytes, GivesMarch, HasCause, InputMarch, IsOwnRefusal};

use bist_endings::Refusal;
use bist_host::{Host, HostFault};
use march_core::March;
use march_syntax::read_march;

/// An input file has at most this many bytes.
const INPUT_LIMIT: usize = 1_048_576;

/// The bytes of the file of this name. A position is that of what names it.
pub fn read_named<H: Host>(host: &mut H, name: &str, position: usize) -> Result<Vec<u8>, Refusal>
    ensures kept { OnlyReads (H.state host.old) (H.state host.new) }
    ensures answer { GivesBytes (H.state host.old).files name.now position (items_of result) }
    ensures cause { HasCause (H.state host.old) (H.state host.new) result }
{
    match host.read_file(name, INPUT_LIMIT) {
        Ok(bytes) => Ok(bytes),
        Err(HostFault::Absent) => Err(Refusal::Absent { position }),
        Err(HostFault::TooLarge) => Err(Refusal::TooLarge { position }),
        Err(HostFault::ReadFailed) => Err(Refusal::ReadFailed { position }),
        Err(_) => Err(Refusal::NoMemory),
    }
}

/// The bytes of the file that a word names.
pub fn read_input<H: Host>(
    host: &mut H,
    words: &[&str],
    position: usize,
) -> Result<Vec<u8>, Refusal>
    requires { position < length words.now }
    ensures kept { OnlyReads (H.state host.old) (H.state host.new) }
    ensures answer { GivesBytes (H.state host.old).files (word words.now position) position (items_of result) }
    ensures cause { HasCause (H.state host.old) (H.state host.new) result }
{
    read_named(host, words[position], position)
}

/// The march of the file of this name.
#[tactic(auto, using(crate::proofs::Causes::own_cause), unfolding(crate::specs::Inputs::FileMarch))]
pub fn read_march_file<H: Host>(host: &mut H, name: &str, position: usize) -> Result<March, Refusal>
    ensures kept { OnlyReads (H.state host.old) (H.state host.new) }
    ensures answer { FileMarch (H.state host.old).files name.now position result }
    ensures cause { HasCause (H.state host.old) (H.state host.new) result }
{
    let bytes = read_named(host, name, position)?;
    give_march(&bytes)
}

/// The march of the file that a word names.
pub fn read_march_input<H: Host>(
    host: &mut H,
    words: &[&str],
    position: usize,
) -> Result<March, Refusal>
    requires { position < length words.now }
    ensures kept { OnlyReads (H.state host.old) (H.state host.new) }
    ensures answer { InputMarch (H.state host.old).files words.now position result }
    ensures cause { HasCause (H.state host.old) (H.state host.new) result }
{
    read_march_file(host, words[position], position)
}

/// The march of a text.
#[tactic(auto, unfolding(crate::specs::Inputs::GivesMarch))]
fn give_march(bytes: &[u8]) -> Result<March, Refusal>
    ensures answer { GivesMarch bytes.now result }
    ensures own { IfErr result IsOwnRefusal }
{
    match read_march(bytes) {
        Ok(march) => Ok(march),
        Err(fault) => Err(Refusal::March(fault)),
    }
}

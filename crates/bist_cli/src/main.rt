//! Vidlakost: the program round the top call, which does what its words ask.
#![tactic(auto)]

ghost use Rattle.std.specs.Prelude.{◌≡◌, IfOk, IfErr, map, drop, string_bytes};
ghost use Rattle.std.specs.Vec.Iter.{into_iter_items};
ghost use Rattle.bist_cli.specs.Program.{own_box, RunsAlone, RunsTexts};

use bist_app::run;
use bist_host::{Host, RealHost};
use std::alloc::{AllocError, Global};
use std::env::{self, Args};
use std::io::ErrorKind;
use std::process::ExitCode;
use word_device::{ArrayDevice, Device};

/// The status where main itself finds no memory.
const NO_MEMORY: u8 = 9;
/// The status where the words can't be read for another reason, as where one isn't UTF-8.
const NO_WORDS: u8 = 16;
/// How many words the program's box has room for.
const ROOM: u32 = 65_536;

fn main(rt: HostRuntime) -> ExitCode {
    let args = match env::args(&rt) {
        Ok(args) => args,
        Err(error) => {
            return ExitCode::from(match error.kind() {
                ErrorKind::OutOfMemory => NO_MEMORY,
                _ => NO_WORDS,
            });
        }
    };
    let alloc = rt.alloc();
    let mut host = RealHost::new(&rt);
    match run_words(alloc, args, &mut host) {
        Ok(status) => ExitCode::from(status),
        Err(AllocError) => ExitCode::from(NO_MEMORY),
    }
}

/// The words behind the first, which is the program's own name.
fn behind_name(mut args: Args) -> Args
    ensures { into_iter_items result ≡ drop 1 (into_iter_items args) }
{
    args.next();
    args
}

fn words_of(alloc: Global, args: Args) -> Result<Vec<String>, AllocError>
    ensures { IfOk result (λ words. words.items ≡ into_iter_items args) }
{
    args.collect(alloc)
}

fn texts_of(alloc: Global, words: &[String]) -> Result<Vec<&str>, AllocError>
    ensures { IfOk result (λ texts. map (λ w. w.now) texts.items ≡ map string_bytes words.now) }
{
    let mut texts = Vec::with_capacity(alloc, words.len())?;
    for word in words {
        texts.push(word.as_str())?;
    }
    Ok(texts)
}

/// Runs the command of the words with the program's own box.
fn run_with<H: Host>(
    alloc: Global,
    words: &[&str],
    host: &mut H,
    device: Box<dyn Device>,
) -> Result<u8, AllocError>
    requires own { told device ≡ own_box }
    ensures runs { IfOk result (RunsAlone words.now (H.state host.old) (H.state host.new)) }
    ensures untouched { IfErr result (λ _. host.new ≡ host.old) }
{
    let mut devices: Vec<Box<dyn Device>> = Vec::new(alloc);
    devices.push(device)?;
    Ok(run(alloc, words, host, &mut devices).status)
}

/// Runs the command of the words with one box, a memory.
fn run_texts<H: Host>(alloc: Global, words: &[&str], host: &mut H) -> Result<u8, AllocError>
    ensures runs { IfOk result (RunsAlone words.now (H.state host.old) (H.state host.new)) }
    ensures untouched { IfErr result (λ _. host.new ≡ host.old) }
{
    run_with(
        alloc,
        words,
        host,
        Box::new(alloc, ArrayDevice::new(alloc, ROOM))?,
    )
}

/// Runs the command of the words behind the program's own name. Want of memory before it leaves the host as it was.
fn run_words<H: Host>(alloc: Global, args: Args, host: &mut H) -> Result<u8, AllocError>
    ensures runs { IfOk result (RunsTexts (map string_bytes (drop 1 (into_iter_items args))) (H.state host.old) (H.state host.new)) }
    ensures untouched { IfErr result (λ _. host.new ≡ host.old) }
{
    let words = words_of(alloc, behind_name(args))?;
    let texts = texts_of(alloc, &words)?;
    run_texts(alloc, &texts, host)
}

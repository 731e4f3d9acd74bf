//! Worked examples of commands: which files and boxes there are, a command, its status, what it says, and what it leaves.
//!
//! A line each, beside the lines of any rows (`rows.rt`):
//!
//! - `NAME = TEXT`: a file is there from here on. `$NAME` is the text of another file, `@NAME` what stands of a file after
//!   the last run, and `@said` what was said. A name that begins with `$` is no file of the host.
//! - `NAME swaps OLD => NEW`: the file has the one part in place of the other.
//! - `no NAME`: it isn't there any more. `anew`: no file, box or failing call is, but the usual texts are.
//! - `boxes SORT:ROOM ..`: these boxes, at each run from here on.
//! - `fails NUMBER ..`: these calls of the host fail, by hexadecimal numbers.
//! - `> COMMAND`: the command of the lines below.
//! - `STATUS SAID`: it runs over a new host with these files, ends so, and says this line; nothing where none is given.
//!   `STATUS+LEFT` where boxes are left. Where it is refused, each file that it names is as before. `STATUS ..` says what
//!   a line `said == TEXT` below it tells.
//! - `NAME == TEXT`, `NAME begins TEXT`, `NAME ends TEXT`, `NAME half TEXT`, `NAME absent`: what stands of a file now.

ghost use Rattle.std.specs.Prelude.{◌<◌, IfSome, length};

use crate::rows::{RowLine, Text, numbers, read_lines};
use bist_app::run;
use bist_host::{FailHost, MemHost};
use bist_text::decimal;
use std::alloc::Global;
use std::str;
use word_device::{ArrayDevice, ConstDevice, CountDevice, Device, NoFitDevice};

/// Marches and memories that many rows name.
static USUAL: &str = r"$mats = {any(w0);up(r0,w1);down(r1,w0)}
$c = {any(w0);up(r0,w1);up(r1,w0);down(r0,w1);down(r1,w0);any(r0)}\n
$ss = {any(w0);up(r0,r0,w0,r0,w1);up(r1,r1,w1,r1,w0);down(r0,r0,w0,r0,w1);down(r1,r1,w1,r1,w0);any(r0)}\n
# each cell is written, left alone, and read
$retention = {any(w0);del;any(r0)}
# 31 pauses
$long = {any(w0);\31{del;\}any(r0)}
$w0 = {any(w0)}
# sixteen words of one bit, and two
$16 = memory 1\nname buf0\nwords 16\nbits 1\n
$two = memory 1\nname two\nwords 2\nbits 1\n
";

/// A file's name and its bytes, where it is there.
#[derive(Drop)]
struct File<'a> {
    name: &'a str,
    bytes: Option<Vec<u8>>,
}

/// What a command is run over, and how its last run ended.
#[derive(Drop)]
struct Stage<'a> {
    files: Vec<File<'a>>,
    // How many of these are the usual texts.
    usual: usize,
    boxes: &'a str,
    failing: &'a str,
    command: &'a str,
    host: FailHost,
    status: u8,
    left: usize,
}

/// Where a file of this name stands.
fn place_of(files: &[File<'_>], name: &str) -> Option<usize>
    ensures { IfSome result (λ i. i < length files.now) }
{
    for (i, file) in files.iter().enumerate() {
        if file.name == name {
            return Some(i);
        }
    }
    None
}

/// The bytes of a file before the command.
fn bytes_of<'a>(files: &'a [File<'_>], name: &str) -> Option<&'a [u8]> {
    match place_of(files, name) {
        Some(i) => files[i].bytes.as_deref(),
        None => None,
    }
}

/// What stands of a file after the last run, or what was said.
fn held<'a>(host: &'a FailHost, name: &str) -> Option<&'a [u8]> {
    match name {
        "said" => Some(host.inner().said()),
        _ => host.inner().get(name),
    }
}

/// From here on a file has these bytes, or isn't there.
fn set_file<'a>(stage: &mut Stage<'a>, name: &'a str, bytes: Option<Vec<u8>>) -> Option<()> {
    match place_of(&stage.files, name) {
        Some(i) => {
            stage.files[i].bytes = bytes;
            Some(())
        }
        None => stage.files.push(File { name, bytes }).ok(),
    }
}

/// From here on a file that is there isn't there any more.
fn forget(stage: &mut Stage<'_>, name: &str) -> Option<()> {
    let place = place_of(&stage.files, name)?;
    stage.files[place].bytes = None;
    Some(())
}

/// What is meant by the text of a line, and its further lines.
fn text_of(alloc: Global, stage: &Stage<'_>, text: &str, more: &Text) -> Option<Vec<u8>> {
    let mut meant = Text::new(alloc);
    if text.starts_with('$') {
        meant.put(bytes_of(&stage.files, text)?);
    } else if let Some(name) = text.strip_prefix('@') {
        meant.put(held(&stage.host, name)?);
    } else {
        meant.put_meant(alloc, text);
    }
    meant.put_text(more);
    meant.finish()
}

/// A box of a sort, with room for so many words.
fn device_of(alloc: Global, sort: &str, room: u32) -> Option<Box<dyn Device>> {
    match sort {
        "sound" => Some(Box::new(alloc, ArrayDevice::new(alloc, room)).ok()?),
        "zeros" => Some(Box::new(alloc, ConstDevice::new(room, 0)).ok()?),
        "ones" => Some(Box::new(alloc, ConstDevice::new(room, u64::MAX)).ok()?),
        // A number one higher in each cycle.
        "count" => Some(Box::new(alloc, CountDevice::new(room)).ok()?),
        // It finds no memory for any shape.
        "no_fit" => Some(Box::new(alloc, NoFitDevice::new(room)).ok()?),
        _ => None,
    }
}

/// The boxes of a line.
fn devices_of(alloc: Global, boxes: &str) -> Option<Vec<Box<dyn Device>>> {
    let mut devices: Vec<Box<dyn Device>> = Vec::new(alloc);
    for word in boxes.split_whitespace() {
        let (sort, room) = word.split_once(':')?;
        let device = device_of(alloc, sort, decimal(room.as_bytes())?)?;
        devices.push(device).ok()?;
    }
    Some(devices)
}

/// Gives a file that is there to the host.
fn put_file(host: &mut MemHost, file: &File<'_>) -> bool {
    match &file.bytes {
        Some(bytes) => file.name.starts_with('$') || host.put(file.name, bytes).is_ok(),
        None => true,
    }
}

/// Gives all files to the host.
fn put_files(host: &mut MemHost, files: &[File<'_>]) -> bool {
    for file in files {
        if !put_file(host, file) {
            return false;
        }
    }
    true
}

/// A host with the files.
fn host_of(alloc: Global, stage: &Stage<'_>) -> Option<FailHost> {
    let failing = numbers(alloc, stage.failing)?;
    let mut inner = MemHost::new(alloc);
    let is_whole = put_files(&mut inner, &stage.files);
    is_whole.then_some(FailHost::new(inner, failing))
}

/// Runs a command.
fn run_command(alloc: Global, stage: &mut Stage<'_>, command: &str) -> Option<()> {
    let words: Vec<&str> = command.split(' ').collect(alloc).ok()?;
    let mut devices = devices_of(alloc, stage.boxes)?;
    stage.host = host_of(alloc, stage)?;
    stage.status = run(alloc, &words, &mut stage.host, &mut devices).status;
    stage.left = devices.len();
    Some(())
}

/// Whether it ended so: the status, or the status, a plus and how many boxes are left.
fn is_ended(stage: &Stage<'_>, ended: &str) -> bool {
    let (status, left) = ended.split_once('+').unwrap_or((ended, "0"));
    decimal(status.as_bytes()) == Some(u32::from(stage.status))
        && decimal(left.as_bytes()) == u32::try_from(stage.left).ok()
}

/// Whether this line was said, or nothing where it has no bytes; `..` stands for any text.
fn is_said(stage: &Stage<'_>, line: &str) -> bool {
    if line == ".." {
        return true;
    }
    let said = stage.host.inner().said();
    match said.split_last() {
        Some((b'\n', said)) => said == line.as_bytes(),
        Some(_) => false,
        None => line.is_empty(),
    }
}

/// Whether each file that the command names is as before.
fn are_kept(stage: &Stage<'_>) -> bool {
    for name in stage.command.split(' ') {
        if held(&stage.host, name) != bytes_of(&stage.files, name) {
            return false;
        }
    }
    true
}

/// Whether the command was no refusal, or left its files as they were.
fn leaves_files(stage: &Stage<'_>) -> bool {
    match stage.status {
        0 | 1 | 8 => true,
        _ => are_kept(stage),
    }
}

/// Runs the command, which ends so and says this line. A refusal changes no file.
fn heed_end(alloc: Global, stage: &mut Stage<'_>, ended: &str, said: &str) -> Option<()> {
    let mut command = Text::new(alloc);
    command.put_meant(alloc, stage.command);
    run_command(alloc, stage, str::from_utf8(command.bytes()?).ok()?)?;
    (is_ended(stage, ended) && is_said(stage, said) && leaves_files(stage)).then_some(())
}

/// The text with one part of it in place of another.
fn swapped(alloc: Global, text: &str, parts: &str) -> Option<Vec<u8>> {
    let (old, new) = parts.split_once(" => ")?;
    let (before, behind) = text.split_once(old)?;
    let mut swapped = Text::new(alloc);
    swapped.put(before.as_bytes());
    swapped.put(new.as_bytes());
    swapped.put(behind.as_bytes());
    swapped.finish()
}

/// From here on the file has one part in place of another.
fn swap<'a>(alloc: Global, stage: &mut Stage<'a>, name: &'a str, parts: &str) -> Option<()> {
    let text = str::from_utf8(bytes_of(&stage.files, name)?).ok()?;
    let bytes = swapped(alloc, text, parts)?;
    set_file(stage, name, Some(bytes))
}

/// Whether what stands of a file is so.
fn stands(held: Option<&[u8]>, verb: &str, text: &[u8]) -> bool {
    let Some(held) = held else {
        return verb == "absent";
    };
    match verb {
        "==" => held == text,
        "begins" => held.starts_with(text),
        "ends" => held.ends_with(text),
        "half" => held == &text[..text.len() / 2],
        _ => false,
    }
}

/// A line on a file: what it holds before a command, or what stands of it behind one.
fn heed_file<'a>(
    alloc: Global,
    stage: &mut Stage<'a>,
    name: &'a str,
    rest: &str,
    more: &Text,
) -> Option<()> {
    let (verb, text) = rest.split_once(' ').unwrap_or((rest, ""));
    if verb == "swaps" {
        return swap(alloc, stage, name, text);
    }
    let text = text_of(alloc, stage, text, more)?;
    if verb == "=" {
        return set_file(stage, name, Some(text));
    }
    stands(held(&stage.host, name), verb, &text).then_some(())
}

/// No file but the usual texts is there, no box, and no failing call.
fn begin_anew(stage: &mut Stage<'_>) {
    stage.files.truncate(stage.usual);
    stage.boxes = "";
    stage.failing = "";
}

fn begins_with_digit(word: &str) -> bool {
    matches!(word.as_bytes(), [b'0'..=b'9', ..])
}

/// Does what a line says, or finds that it isn't so.
fn heed<'a>(alloc: Global, stage: &mut Stage<'a>, line: &RowLine<'a>) -> Option<()> {
    let (first, rest) = line.line.split_once(' ').unwrap_or((line.line, ""));
    match first {
        ">" => stage.command = rest,
        "boxes" => stage.boxes = rest,
        "fails" => stage.failing = rest,
        "anew" => begin_anew(stage),
        "no" => forget(stage, rest)?,
        _ if begins_with_digit(first) => return heed_end(alloc, stage, first, rest),
        _ => return heed_file(alloc, stage, first, rest, &line.more),
    }
    Some(())
}

/// Goes through the rows; the number of the first that is wrong.
fn walk<'a>(alloc: Global, stage: &mut Stage<'a>, text: &'a str) -> Option<usize> {
    let Some(lines) = read_lines(alloc, text) else {
        return Some(0);
    };
    for line in &lines {
        if heed(alloc, stage, line).is_none() {
            return Some(line.number);
        }
    }
    None
}

/// The number of the first row that is wrong, where one is; 0 where a line can't be read.
pub(crate) fn first_wrong(alloc: Global, text: &'static str) -> Option<usize> {
    let mut stage = Stage {
        files: Vec::new(alloc),
        usual: 0,
        boxes: "",
        failing: "",
        command: "",
        host: FailHost::new(MemHost::new(alloc), Vec::new(alloc)),
        status: 0,
        left: 0,
    };
    let wrong = walk(alloc, &mut stage, USUAL);
    stage.usual = stage.files.len();
    match wrong {
        None => walk(alloc, &mut stage, text),
        wrong => wrong,
    }
}

ghost use Rattle.std.specs.Prelude.{◌≡◌, ◌≤◌, ◌++◌, OnOk, codes};
ghost use Rattle.decoder_report.specs.Report.{fault_text, addresses_text, escape_text};
ghost use Rattle.decoder_report.specs.inner.Judged.{judged_line, judged_lines};

use crate::judged::JudgedFault;
use bist_bits::NoMemory;
use bist_text::{put, put_between, put_number_between};
use decoder_faults::{DecoderEscape, DecoderFault, WiredRead};
use report_lines::write_passing;

/// The printed name of a fault.
fn fault_name(fault: DecoderFault) -> &'static [u8]
    ensures { result.now ≡ fault_text fault }
{
    match fault {
        DecoderFault::NoCell(false) => b"none 0",
        DecoderFault::NoCell(true) => b"none 1",
        DecoderFault::OtherCell => b"other",
        DecoderFault::BothCells(WiredRead::And) => b"both and",
        DecoderFault::BothCells(WiredRead::Or) => b"both or",
        DecoderFault::BothCells(WiredRead::Own) => b"both own",
        DecoderFault::TakenCell(_, _) => b"taken",
    }
}

/// Appends the two addresses of a fault.
fn write_addresses(out: &mut Vec<u8>, escape: &DecoderEscape) -> Result<(), NoMemory>
    ensures { OnOk result (out.new.items ≡ out.old.items ++ addresses_text escape.now) }
{
    put_number_between(out, b" x ", u64::from(escape.x), b" y ")?;
    put_number_between(out, b"", u64::from(escape.y), b"")
}

/// Appends an escape of a march with so many elements.
fn write_escape(out: &mut Vec<u8>, escape: &DecoderEscape, size: usize) -> Result<(), NoMemory>
    requires { size ≤ 64 }
    ensures { OnOk result (out.new.items ≡ out.old.items ++ escape_text size escape.now) }
{
    write_addresses(out, escape)?;
    write_passing(out, &escape.content[..], escape.directions, size)
}

/// Appends the line of a judged fault, without its end.
fn write_line(out: &mut Vec<u8>, judged: &JudgedFault, size: usize) -> Result<(), NoMemory>
    requires { size ≤ 64 }
    ensures { OnOk result (out.new.items ++ codes "\n" ≡ out.old.items ++ judged_line size judged.now) }
{
    match &judged.escape {
        None => put_between(out, b"covered ", fault_name(judged.fault), b""),
        Some(escape) => {
            put_between(out, b"escape ", fault_name(judged.fault), b"")?;
            write_escape(out, escape, size)
        }
    }
}

/// Appends the lines of judged faults.
pub(crate) fn write_lines(
    out: &mut Vec<u8>,
    judged: &[JudgedFault],
    size: usize,
) -> Result<(), NoMemory>
    requires { size ≤ 64 }
    ensures { OnOk result (out.new.items ≡ out.old.items ++ judged_lines size judged.now) }
{
    for fault in judged {
        write_line(out, fault, size)?;
        put(out, b"\n")?;
    }
    Ok(())
}

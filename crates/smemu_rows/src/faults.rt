//! Lines of sources that are refused, each with its fault.
use anyhow::Result;
use asm_parser::{LineFault, parse_line};
use std::alloc::Global;

/// The fault and its column, as the refusal of a source has them.
fn fault_text(alloc: Global, fault: LineFault) -> Result<String> {
    let (kind, column) = match fault {
        LineFault::UnknownName(column) => ("unknownname", column),
        LineFault::BadOperand(column) => ("badoperand", column),
        LineFault::BadNumber(column) => ("badnumber", column),
        LineFault::Extra(column) => ("extra", column),
        LineFault::Memory => ("memory", 0),
    };
    Ok(format!(in alloc; "{kind} {column}")?)
}

/// Tells whether the source's line is refused with that fault.
fn has_fault(alloc: Global, wanted: &str, source: &str) -> Result<bool> {
    if source.len() > 96 {
        return Ok(false);
    }
    match parse_line(alloc, source) {
        Ok(_line) => Ok(false),
        Err(fault) => Ok(fault_text(alloc, fault)?.as_str() == wanted),
    }
}

/// Prints each line of a fault and a source's line that is not refused with it, and how many are.
pub fn check_faults<R: Print + AllocGlobal>(rt: &R, text: &str) -> Result<()> {
    let mut agree = 0u64;
    for line in text.lines() {
        let (wanted, source) = line.split_once('\t').unwrap_or((line, ""));
        if has_fault(rt.alloc(), wanted, source)? {
            agree = agree.saturating_add(1);
        } else {
            println!(rt; "DIFFERS: {line}")?;
        }
    }
    println!(rt; "lines at fault: {agree} agree")?;
    Ok(())
}

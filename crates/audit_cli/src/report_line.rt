//! The line that tells a report, as compact JSON.

ghost use Rattle.std.specs.Prelude.{◌≡◌, IfOk, option_map, string_bytes};
ghost use Rattle.serde_json.specs.View.{view};
ghost use Rattle.audit_dump.specs.Told.{fault_of, report_of};
ghost use Rattle.audit_cli.specs.ReportLines as spec;
ghost use Rattle.audit_cli.specs.ReportLines.{fault_data, report_data, report_text};

use audit_dump::{Fault, Report};
use ledger_bytes::NoMemory;
use serde_json::{Value, json};
use std::alloc::{AllocError, Global};

/// The line that tells a report: compact JSON with its keys in their order, and a newline.
pub fn report_text(alloc: Global, report: &Report) -> Result<String, NoMemory>
    ensures { IfOk result (λ line. string_bytes line ≡ spec.report_line (report_of report.now)) }
{
    let mut line = written(alloc, report)?;
    line.push('\n')?;
    Ok(line)
}

// The same without the newline.
fn written(alloc: Global, report: &Report) -> Result<String, AllocError>
    ensures { IfOk result (λ text. string_bytes text ≡ report_text (report_of report.now)) }
{
    let value = report_value(alloc, report)?;
    value.to_string(alloc)
}

fn report_value(alloc: Global, report: &Report) -> Result<Value, AllocError>
    ensures { IfOk result (λ value. view value ≡ report_data (report_of report.now)) }
{
    let fault = fault_value(alloc, report.fault)?;
    json!(in alloc; {
        "fault": fault,
        "kept": report.kept,
        "occulted": report.occulted,
        "point": report.point,
        "size": report.size,
        "times": report.times,
    })
}

fn fault_value(alloc: Global, fault: Option<Fault>) -> Result<Value, AllocError>
    ensures { IfOk result (λ value. view value ≡ fault_data (option_map fault_of fault)) }
{
    match fault {
        Some(fault) => {
            let number = fault.check.number();
            json!(in alloc; [number, fault.place])
        }
        None => Ok(Value::Null),
    }
}

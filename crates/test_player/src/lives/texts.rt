//! What is written.
use chess_store::{Drilled, Report, Tally, drill};
use std::alloc::{AllocError, Global};
use test_lines::Fault;

// Appends what came of lives.
fn push_report(alloc: Global, text: &mut String, report: &Report) -> Result<(), AllocError> {
    for life in &report.lives {
        let opened = match life.opened {
            Some(opened) => format!(in alloc; "{opened}")?,
            None => format!(in alloc; "-")?,
        };
        let line = format!(in alloc;
            "life {} {} {} {} {}\n",
            opened.as_str(),
            life.acknowledged,
            life.accepted,
            life.unsent,
            life.failures
        )?;
        text.push_str(line.as_str())?;
    }
    text.push_str(format!(in alloc; "kept {}\n", report.kept)?.as_str())
}

/// What came of lives.
pub fn report_text(alloc: Global, report: &Report) -> Result<String, AllocError> {
    let mut text = String::new(alloc);
    push_report(alloc, &mut text, report)?;
    Ok(text)
}

/// What comes of the drill, and its tally.
pub fn drill_text(alloc: Global) -> Result<String, Fault> {
    let drilled = drill(alloc)?;
    drilled_text(alloc, &drilled)
}

// What came of a drill, and its tally.
fn drilled_text(alloc: Global, drilled: &Drilled) -> Result<String, Fault> {
    let mut text = String::new(alloc);
    for case in &drilled.cases {
        match &case.report {
            Ok(report) => push_report(alloc, &mut text, report)?,
            Err(fault) => return Err(Fault::of(alloc, fault)),
        }
    }
    let Tally { cases, none, all } = match &drilled.tally {
        Ok(tally) => *tally,
        Err(fault) => return Err(Fault::of(alloc, fault)),
    };
    text.push_str(format!(in alloc; "drill {cases} none {none} all {all}\n")?.as_str())?;
    Ok(text)
}

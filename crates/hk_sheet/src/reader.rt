//! A task sheet from its bytes.
ghost use Rattle.std.specs.Prelude.{IfOk, IfErr};
ghost use Rattle.toml.specs.View.{table_view};
ghost use Rattle.hk_sheet.specs.Reading.{sheet_in};
ghost use Rattle.hk_sheet.specs.Faults.{fault_of};
ghost use Rattle.hk_sheet.specs.Valid.{IsSheet};
ghost use Rattle.hk_sheet.specs.Answers.{IsDocument, Answers};
ghost use Rattle.hk_sheet.specs.Code.{Gives};

use crate::raw::raw_sheet;
use crate::tasks::judged;
use crate::{Sheet, SheetError};
use std::alloc::Global;
use toml::Table;

/// The document of some bytes.
fn document_of(alloc: Global, bytes: &[u8]) -> Result<Table, SheetError>
    ensures document { IfOk result (λ document. IsDocument bytes.now (table_view document)) }
    ensures refused { IfErr result (λ e. Answers bytes.now (Err e)) }
{
    match toml::table_from_slice(alloc, bytes) {
        Ok(document) => Ok(document),
        Err(error) if error.is_memory() => Err(SheetError::Memory),
        Err(_) => Err(SheetError::Text),
    }
}

/// The sheet that a document declares, or its first fault.
fn sheet_in(alloc: Global, document: &Table) -> Result<Sheet, SheetError>
    ensures { Gives (fault_of (table_view document.now)) (sheet_in (table_view document.now)) result }
{
    let raw = raw_sheet(alloc, document)?;
    judged(alloc, raw)
}

/// The task sheet of some bytes, or the first reason why they are none.
pub fn read(alloc: Global, bytes: &[u8]) -> Result<Sheet, SheetError>
    // What is answered is the sheet, or the first fault.
    ensures answer { Answers bytes.now result }
    // A sheet that is read is one that the other calls take.
    ensures valid { IfOk result IsSheet }
{
    let document = document_of(alloc, bytes)?;
    sheet_in(alloc, &document)
}

//! The word that plays on one board.
ghost use Rattle.std.specs.Prelude.{IfErr};
ghost use Rattle.server_words.specs.Faults.{IsBoardFault};

use crate::board_loop::board_reads;
use crate::ends::{Fault, fault_of_board};
use server_telling::{Teller, TellingReader, TellingWriter};
use std::io::{Read, Write};
use text_lines::Reads;

/// Answers the lines of a reader on a writer, over one board.
pub fn play_board<R: Eprint, I: Read, O: Write>(
    rt: &R,
    input: &mut I,
    output: &mut O,
) -> Result<(), Fault>
    ensures { IfErr result IsBoardFault }
{
    let teller = Teller::new(rt, false);
    let mut reader = TellingReader::new(input, &teller);
    let mut writer = TellingWriter::new(output, &teller);
    match board_reads(&mut reader, &mut Reads::new(), &mut writer) {
        Ok(()) => Ok(()),
        Err(fault) => Err(fault_of_board(fault)),
    }
}

//! The answers that come from the server, line by line.
ghost use Rattle.std.specs.Prelude.{◌≡◌, ◌==◌, [], IfOk, OnOk};
ghost use Rattle.std.specs.String.{string_bytes};
ghost use Rattle.lobby_words.specs.Answers.{answer, IsTaken};
ghost use Rattle.lobby_words.specs.Answers as answers;

use server_answers::lines_behind;
use std::alloc::{AllocError, Global};

/// An answer of which not every line has come.
#[derive(Drop)]
pub struct Coming {
    alloc: Global,
    pub text: String,
    /// How many lines are still to come; 0 where none has.
    pub left: u32,
}

impl Coming {
    /// Nothing has come.
    pub fn new(alloc: Global) -> Coming
        ensures text { string_bytes result.text ≡ [] }
        ensures left { result.left ≡ 0 }
    {
        Coming {
            alloc,
            text: String::new(alloc),
            left: 0,
        }
    }

    // A line comes.
    fn add(&mut self, line: &str) -> Result<(), AllocError>
        ensures text { OnOk result (string_bytes self.new.text ≡ answer (string_bytes self.old.text) line.now) }
        ensures left { OnOk result (self.new.left ≡ answers.left_after self.old.left line.now) }
    {
        self.text.push_str(line)?;
        self.text.push('\n')?;
        self.left = if self.left == 0 {
            lines_behind(line)
        } else {
            self.left - 1
        };
        Ok(())
    }

    // Whether no line is still to come.
    fn is_whole(&self) -> bool
        ensures { result ≡ (self.now.left == 0) }
    {
        self.left == 0
    }

    // The lines that have come.
    fn take_all(&mut self) -> String
        ensures text { string_bytes result ≡ string_bytes self.old.text }
        ensures taken { string_bytes self.new.text ≡ [] }
        ensures left { self.new.left ≡ self.old.left }
    {
        std::mem::replace(&mut self.text, String::new(self.alloc))
    }

    /// Takes a line, and gives the answer with all its lines where it was the last of them.
    pub fn take(&mut self, line: &str) -> Result<Option<String>, AllocError>
        ensures left { OnOk result (self.new.left ≡ answers.left_after self.old.left line.now) }
        ensures taken { IfOk result (λ whole. IsTaken self.old line.now whole self.new) }
    {
        self.add(line)?;
        let whole = self.is_whole();
        if whole {
            Ok(Some(self.take_all()))
        } else {
            Ok(None)
        }
    }

    /// Forgets what has come.
    pub fn clear(&mut self)
        ensures text { string_bytes self.new.text ≡ [] }
        ensures left { self.new.left ≡ 0 }
    {
        self.text.clear();
        self.left = 0;
    }
}

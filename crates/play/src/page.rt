// The page that a play prints on.
ghost use Rattle.std.specs.Prelude.{◌≡◌, ◌≤◌, [], ◌∷◌, map, length};

use crate::ending::Ending;
use crate::line::Line;
use book::row::Row;
use market::refusal::Refusal;

// The caller's bytes, how many of them are written, and whether a line has found no room: then no later line is printed,
// and what is written still counts.
#[derive(Drop)]
pub struct Page<'a> {
    out: &'a mut [u8],
    used: usize,
    full: bool,
    ghost inside: { used ≤ length out.now },
}

impl<'a> Page<'a> {
    ghost use Rattle.play.specs.Pages.{Printed, Wrote};
    ghost use Rattle.play.specs.Steps.{Finished};

    // A page on which nothing is printed yet.
    pub(crate) fn new(out: &'a mut [u8]) -> Page<'a>
        ensures { Printed out.entry [] result }
    {
        Page {
            out,
            used: 0,
            full: false,
        }
    }

    // Prints a line behind those before it, whole, or not at all where it finds no room.
    pub(crate) fn print(&mut self, line: Line)
        ensures { Wrote (line ∷ []) self.old self.new }
    {
        let text = line.text();
        let size = text.len();
        if self.full || size > self.out.len() - self.used {
            self.full = true;
            return;
        }
        let end = self.used + size;
        self.out[self.used..end].copy_from_slice(text.as_bytes());
        self.used = end;
    }

    // Prints the rows of a report.
    pub(crate) fn print_rows(&mut self, rows: &[Row])
        ensures { Wrote (map Line.Row rows.now) self.old self.new }
    {
        for row in rows {
            self.print(Line::Row(*row));
        }
    }

    // Prints the last line, and answers how the play ends: with 18 where a line was cut off, else with this.
    pub(crate) fn finish(&mut self, last: Line, end: Result<(), Refusal>) -> Ending
        ensures { Finished last end self.old self.new result }
    {
        self.print(last);
        Ending {
            written: self.used,
            end: if self.full {
                Err(Refusal::OutputShort)
            } else {
                end
            },
        }
    }
}

// Lines that are written into a buffer, and printed by `flush` when it is nearly full, and at their end. The buffer keeps its length.
ghost use Rattle.std.specs.Prelude.{◌≡◌, length};

use program_lines::say_front;
use text::Writer;

// The bytes of the buffer, and those after which they are printed.
pub(crate) const LINES_ROOM: usize = 4096;

const FULL: usize = 4000;

// What is written and not printed yet.
#[derive(Drop)]
pub(crate) struct Lines<'a> {
    w: Writer<'a>,
}

impl<'a> Lines<'a> {
    // No lines, and the buffer to write them in.
    pub(crate) fn new(out: &'a mut [u8; LINES_ROOM]) -> Lines<'a> {
        Lines {
            w: Writer { out, at: 0 },
        }
    }

    // Prints what is written, and goes on with nothing.
    pub(crate) fn print(&mut self)
        ensures { length self.new.w.out.now ≡ length self.old.w.out.now }
    {
        let n = self.w.at;
        say_front(self.w.out, n);
        self.w.at = 0;
    }

    // Makes room for an element and what stands behind it: prints what is written where the buffer is nearly full.
    pub(crate) fn flush(&mut self)
        ensures { length self.new.w.out.now ≡ length self.old.w.out.now }
    {
        if FULL <= self.w.at {
            self.print();
        }
    }

    // Writes some bytes; nothing where there is no room, which `flush` makes.
    pub(crate) fn add(&mut self, bytes: &[u8])
        ensures { length self.new.w.out.now ≡ length self.old.w.out.now }
    {
        self.w.put(bytes);
    }

    // Writes a number, likewise.
    pub(crate) fn add_number(&mut self, n: u32)
        ensures { length self.new.w.out.now ≡ length self.old.w.out.now }
    {
        self.w.put_decimal(n);
    }
}

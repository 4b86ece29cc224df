// The seven sections of a text: each has its word, and then its numbers.
use program_lines::{say, say_fault, say_number, say_position};
use text_numbers::{front_of, rest_of};

// A text must be shorter than this.
pub(crate) const MOST_TEXT: usize = 65536;

// A section: its word, the line of its word, and its numbers.
#[derive(Clone, Copy)]
pub(crate) struct Section<'a> {
    word: &'a [u8],
    line: usize,
    pub(crate) numbers: &'a [u32],
}

// The sections, in their order.
#[derive(Clone, Copy)]
pub(crate) struct Sections<'a> {
    pub(crate) job: Section<'a>,
    pub(crate) points: Section<'a>,
    pub(crate) a: Section<'a>,
    pub(crate) b: Section<'a>,
    pub(crate) masks_a: Section<'a>,
    pub(crate) masks_b: Section<'a>,
    pub(crate) answers: Section<'a>,
}

impl<'a> Section<'a> {
    // Prints how many numbers the section has.
    fn say_has(self) {
        say(b"SECTION ");
        say(self.word);
        say_number(b" has ", self.numbers.len() as u64);
        say(b" numbers");
    }

    // Prints the line of the section's word.
    fn say_line(self) {
        say_number(b", line ", self.line as u64);
        say(b"\n");
    }

    // Prints how many numbers the section has and needs, and the line of its word.
    pub(crate) fn say_count(self, needs: usize) {
        self.say_has();
        say_number(b" and needs ", needs as u64);
        self.say_line();
    }

    // The section has as many numbers as it needs; where it has not, that is printed.
    pub(crate) fn has(self, needs: usize) -> bool {
        if self.numbers.len() == needs {
            return true;
        }
        self.say_count(needs);
        false
    }

    // Every host of the answers has a minute after it; where the last has none, that is printed.
    pub(crate) fn has_minutes(self) -> bool {
        if self.numbers.len() % 2 == 0 {
            return true;
        }
        self.say_has();
        say(b" and needs a minute after each host");
        self.say_line();
        false
    }
}

// ---- reading

// A text, the offset up to which it is read, and the room that is left for its numbers.
#[derive(Drop)]
struct Reader<'t, 'a> {
    text: &'t [u8],
    at: usize,
    room: &'a mut [u32],
}

// Prints the position of an offset, and the end of the line.
fn say_place(text: &[u8], at: usize) {
    say_position(text, at);
    say(b"\n");
}

// The word stands at an offset of the text; where it does not, that is printed.
fn has_word(text: &[u8], at: usize, word: &[u8]) -> bool {
    let rest = rest_of(text, at);
    if front_of(rest, text_numbers::token_end(rest)) == word {
        return true;
    }
    say(b"EXPECTED the word ");
    say(word);
    say_place(text, at);
    false
}

impl<'t, 'a> Reader<'t, 'a> {
    // Reads the section of a word: the word, and the numbers up to the next word. What is wrong is printed.
    fn section(self, word: &'a [u8]) -> Option<(Section<'a>, Reader<'t, 'a>)> {
        let Reader { text, at, room } = self;
        if !has_word(text, at, word) {
            return None;
        }
        let start = at.saturating_add(word.len());
        let after = rest_of(text, start);
        let end = text_numbers::first_word(after);
        let count = match text_numbers::read_numbers(front_of(after, end), room) {
            Ok(count) => count.min(room.len()),
            Err(fault) => {
                say_fault(text, start.saturating_add(fault.at));
                return None;
            }
        };
        let (numbers, room) = room.split_at_mut(count);
        let line = text_numbers::position_of(text, at).line;
        let at = start.saturating_add(end);
        Some((
            Section {
                word,
                line,
                numbers,
            },
            Reader { text, at, room },
        ))
    }
}

// Reads all sections of a text; prints the first thing that is wrong.
pub(crate) fn read_sections<'a>(text: &[u8], room: &'a mut [u32]) -> Option<Sections<'a>> {
    let at = text_numbers::first_token(text);
    let reader = Reader { text, at, room };
    let (job, reader) = reader.section(b"JOB")?;
    let (points, reader) = reader.section(b"POINTS")?;
    let (a, reader) = reader.section(b"A")?;
    let (b, reader) = reader.section(b"B")?;
    let (masks_a, reader) = reader.section(b"MASKS_A")?;
    let (masks_b, reader) = reader.section(b"MASKS_B")?;
    let (answers, reader) = reader.section(b"ANSWERS")?;
    if reader.at < text.len() {
        say(b"EXPECTED the end of the text");
        say_place(text, reader.at);
        return None;
    }
    Some(Sections {
        job,
        points,
        a,
        b,
        masks_a,
        masks_b,
        answers,
    })
}

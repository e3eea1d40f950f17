//! Where the steps of a row are judged.

use crate::how::{How, Source};
use crate::row::{Malformed, Row};
use crate::square::closes;
use crate::streams;
use cbor_convert::to_vec_canonical;
use cbor_de::{Deserialize, Deserializer};
use cbor_io::error::Result;
use cbor_read::Read;
use cbor_ser::{Serialize, Serializer, to_vec, to_vec_packed};
use std::alloc::Global;
use std::fmt::{Debug, InlineText};
use std::{fmt, io};

/// The longest answer that is compared.
const ANSWER: usize = 1024;

/// What came of a step of a row.
#[derive(Clone, Copy, Debug, PartialEq)]
pub enum Outcome {
    Right,
    Wrong,
    /// Memory ran out, which no row says.
    OutOfMemory,
}

impl Outcome {
    fn name(self) -> &'static str {
        match self {
            Outcome::Right => "right",
            Outcome::Wrong => "wrong",
            Outcome::OutOfMemory => "out of memory",
        }
    }
}

/// What is judged of a row.
#[derive(Clone, Copy, Debug, PartialEq)]
pub enum Step {
    /// What a source reads.
    Read(Source),
    /// What the value is written as that a source has read.
    Write(Source),
}

impl Step {
    fn name(self) -> &'static str {
        match self {
            Step::Read(Source::Slice) => "slice",
            Step::Read(Source::Scratch) => "scratch",
            Step::Read(Source::InPlace) => "in place",
            Step::Read(Source::Reader) => "reader",
            Step::Write(_) => "written",
        }
    }

    // What is said of a step of a row that takes no memory: that holds for what is read.
    fn free(self) -> &'static str {
        match self {
            Step::Read(_) => " without memory",
            Step::Write(_) => "",
        }
    }
}

/// Judges the steps of a row: what each source reads, and what is written.
#[derive(Drop)]
pub struct Desk<'d> {
    pub rt: &'d HostRuntime,
    /// Whether each step is reported, as it begins and as it ends.
    pub reports_each: bool,
    /// The table's name.
    pub table: &'d str,
    /// The row's line, from 1.
    pub line: usize,
    /// What is judged.
    pub step: Step,
    /// Whether the end of the input is asked for behind an item, and what is read is written.
    pub ends: bool,
    /// How many steps there were.
    pub steps: usize,
    /// How many of them were not right.
    pub wrong: usize,
}

impl<'d> Desk<'d> {
    /// Judges what is read as a type, and what that is written as; or a stream of the type.
    pub fn reads<'r, T, R>(&mut self, row: &Row<'_>, de: Deserializer<R>) -> io::Result<()>
    where
        T: Deserialize<'r, R> + Serialize + Debug,
        R: Read<'r> + Drop,
    {
        if row.how.stream {
            return streams::judge::<T, R>(self, row, de);
        }
        self.begins(self.step)?;
        let read = whole::<T, R>(de, self.ends);
        self.judges_and_writes(row, read)
    }

    /// Judges what is read as a type that isn't written, or a stream of the type.
    pub fn reads_alone<'r, T, R>(&mut self, row: &Row<'_>, de: Deserializer<R>) -> io::Result<()>
    where
        T: Deserialize<'r, R> + Debug,
        R: Read<'r> + Drop,
    {
        if row.how.stream {
            return streams::judge::<T, R>(self, row, de);
        }
        self.begins(self.step)?;
        let read = whole::<T, R>(de, self.ends);
        self.judges(row, &read)
    }

    /// Judges what was read, and what that is written as.
    pub fn judges_and_writes<T>(&mut self, row: &Row<'_>, read: Result<T>) -> io::Result<()>
    where
        T: Serialize + Debug + Drop,
    {
        self.judges(row, &read)?;
        if !self.ends {
            return Ok(());
        }
        let Some(want) = &row.written else {
            return Ok(());
        };
        let Ok(value) = &read else {
            return Ok(());
        };
        self.begins(self.step.then_write())?;
        let written = write(self.rt.alloc(), value, row.how);
        self.judges_written(row, want, &written)?;
        if self.reports_each || row.how.reads_deeper() {
            return Ok(());
        }
        match closes(self.rt.alloc(), value) {
            Ok(true) => Ok(()),
            // What was written is read, and made and written again, so that no error is right.
            Ok(false) | Err(_) => self.reports_square(),
        }
    }

    // Judges what was read.
    fn judges<T: Debug>(&mut self, row: &Row<'_>, read: &Result<T>) -> io::Result<()> {
        let outcome = match read {
            Ok(_) if row.answer.is_empty() => Outcome::Right,
            _ => outcome_of(read, row.answer),
        };
        self.ends(row, outcome)?;
        if outcome == Outcome::Wrong {
            println!(self.rt; "  {}", said(read).as_str())?;
        }
        Ok(())
    }

    // Judges what was written.
    fn judges_written(
        &mut self,
        row: &Row<'_>,
        want: &[u8],
        written: &Result<Vec<u8>>,
    ) -> io::Result<()> {
        match written {
            Ok(bytes) if bytes.as_slice() == want => self.ends(row, Outcome::Right),
            Err(e) if e.is_memory() => self.ends(row, Outcome::OutOfMemory),
            Ok(bytes) => {
                self.ends(row, Outcome::Wrong)?;
                println!(self.rt; "  {}", Hex(bytes))
            }
            Err(e) => {
                self.ends(row, Outcome::Wrong)?;
                println!(self.rt; "  error: {e}")
            }
        }
    }

    /// Reports that the line is no row.
    pub fn refuses(&mut self, malformed: Malformed) -> io::Result<()> {
        self.wrong = self.wrong.saturating_add(1);
        println!(self.rt; "{}:{}: {malformed}", self.table, self.line)
    }

    /// Reports that a reader was asked for a byte behind the item.
    pub fn reports_asked(&mut self) -> io::Result<()> {
        self.wrong = self.wrong.saturating_add(1);
        println!(self.rt; "{}:{}: reader: asked for more", self.table, self.line)
    }

    /// Reports that bytes that were read in place aren't there any more.
    pub fn reports_lost(&mut self) -> io::Result<()> {
        self.wrong = self.wrong.saturating_add(1);
        println!(self.rt; "{}:{}: in place: bytes lost", self.table, self.line)
    }

    /// Reports that so many of the row's bytes were not refused as an end of input.
    pub fn reports_front(&mut self, len: usize) -> io::Result<()> {
        self.wrong = self.wrong.saturating_add(1);
        println!(self.rt; "{}:{}: first {len} bytes: wrong", self.table, self.line)
    }

    /// Reports that what a value stands for isn't what its bytes are read as.
    pub fn reports_square(&mut self) -> io::Result<()> {
        self.wrong = self.wrong.saturating_add(1);
        println!(self.rt; "{}:{}: to_value: wrong", self.table, self.line)
    }

    /// Reports that what is written isn't read strictly as what it was.
    pub fn reports_strict(&mut self) -> io::Result<()> {
        self.wrong = self.wrong.saturating_add(1);
        println!(self.rt; "{}:{}: strict: wrong", self.table, self.line)
    }

    /// Reports that a step begins. What stands between this and its end may want memory.
    pub fn begins(&mut self, step: Step) -> io::Result<()> {
        self.step = step;
        if self.reports_each {
            self.rt.print("+\n")?;
        }
        Ok(())
    }

    /// Reports what came of a step.
    pub fn ends(&mut self, row: &Row<'_>, outcome: Outcome) -> io::Result<()> {
        if self.reports_each {
            self.rt.print("-\n")?;
        }
        self.steps = self.steps.saturating_add(1);
        if outcome != Outcome::Right {
            self.wrong = self.wrong.saturating_add(1);
        }
        if self.reports_each || outcome != Outcome::Right {
            self.reports(row, outcome)?;
        }
        Ok(())
    }

    fn reports(&self, row: &Row<'_>, outcome: Outcome) -> io::Result<()> {
        let step = self.step.name();
        let free = if row.how.no_memory {
            self.step.free()
        } else {
            ""
        };
        let outcome = outcome.name();
        println!(self.rt; "{}:{}: {step}{free}: {outcome}", self.table, self.line)
    }
}

impl Step {
    // The writing of what this step reads.
    fn then_write(self) -> Step {
        match self {
            Step::Read(source) | Step::Write(source) => Step::Write(source),
        }
    }
}

// Reads one item, and the end after it where that is asked for.
fn whole<'r, T: Deserialize<'r, R>, R: Read<'r> + Drop>(
    de: Deserializer<R>,
    ends: bool,
) -> Result<T> {
    let mut de = de;
    let value = T::deserialize(&mut de)?;
    if ends {
        de.end()?;
    }
    Ok(value)
}

/// What comes of an answer, where this one is wanted.
pub fn outcome_of<T: Debug>(read: &Result<T>, want: &str) -> Outcome {
    if said(read).as_str() == want {
        return Outcome::Right;
    }
    match read {
        Err(e) if e.is_memory() => Outcome::OutOfMemory,
        _ => Outcome::Wrong,
    }
}

// An answer as a row says it.
fn said<T: Debug>(read: &Result<T>) -> InlineText<ANSWER> {
    match read {
        Ok(value) => InlineText::of(format_args!("{value:?}")),
        Err(e) => InlineText::of(format_args!("error: {e}")),
    }
}

// The bytes of a value, in the form that the row asks for.
fn write<T: Serialize>(alloc: Global, value: &T, how: How) -> Result<Vec<u8>> {
    if how.canonical {
        return to_vec_canonical(alloc, value);
    }
    if !how.legacy {
        return if how.packed {
            to_vec_packed(alloc, value)
        } else {
            to_vec(alloc, value)
        };
    }
    let mut ser = Serializer::new(alloc, Vec::new(alloc)).legacy_enums();
    if how.packed {
        ser = ser.packed_format();
    }
    value.serialize(&mut ser)?;
    Ok(ser.into_inner())
}

/// Bytes as hexadecimal digits.
#[derive(Drop)]
struct Hex<'a>(&'a [u8]);

impl fmt::Display for Hex<'_> {
    fn fmt<W: fmt::Write>(&self, f: &mut fmt::Formatter<W>) -> fmt::Result {
        for byte in self.0 {
            write!(f, "{byte:02x}")?;
        }
        Ok(())
    }
}

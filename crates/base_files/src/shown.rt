// What the programs print of bytes, rows, state records and refusals.
ghost use Rattle.std.specs.Prelude.{Some, length};
ghost use Rattle.base_files.specs.Shown.{in_hex, spaced, slots_to, record_text, refused_text};

use std::fmt;

/// Bytes in hexadecimal, two digits for each.
#[derive(Clone, Copy)]
pub struct Hex<'a>(pub &'a [u8]);

impl fmt::Display for Hex<'_> {
    ghost output = { λ h. Some (in_hex h.0.now) };

    fn fmt<W: fmt::Write>(&self, f: &mut fmt::Formatter<W>) -> fmt::Result {
        for b in self.0 {
            write!(f, "{b:02x}")?;
        }
        Ok(())
    }
}

/// The values of a row, each after a space.
#[derive(Clone, Copy)]
pub struct Spaced<'a>(pub &'a [i32]);

impl fmt::Display for Spaced<'_> {
    ghost output = { λ r. Some (spaced r.0.now) };

    fn fmt<W: fmt::Write>(&self, f: &mut fmt::Formatter<W>) -> fmt::Result {
        for v in self.0 {
            write!(f, " {v}")?;
        }
        Ok(())
    }
}

/// The slots that are not 0: a label, the slot's number and its value.
#[derive(Clone, Copy)]
pub struct Slots<'a> {
    pub label: &'a str,
    pub values: &'a [i32],
}

impl fmt::Display for Slots<'_> {
    ghost output = { λ s. Some (slots_to s.label.now s.values.now (length s.values.now)) };

    fn fmt<W: fmt::Write>(&self, f: &mut fmt::Formatter<W>) -> fmt::Result {
        let label = self.label;
        for (k, v) in self.values.iter().enumerate() {
            if *v != 0 {
                write!(f, "{label}{k}={v}")?;
            }
        }
        Ok(())
    }
}

/// A state record: its place, and the slots that are not 0, those of outputs after `o` and those of variables after `v`.
#[derive(Clone, Copy)]
pub struct Record<'a> {
    pub place: u16,
    pub outputs: &'a [i32],
    pub variables: &'a [i32],
}

impl fmt::Display for Record<'_> {
    ghost output = { λ r. Some (record_text r.place r.outputs.now r.variables.now) };

    fn fmt<W: fmt::Write>(&self, f: &mut fmt::Formatter<W>) -> fmt::Result {
        let place = self.place;
        let outputs = Slots {
            label: " o",
            values: self.outputs,
        };
        let variables = Slots {
            label: " v",
            values: self.variables,
        };
        write!(f, " at {place}{outputs}{variables}")
    }
}

/// A refusal: its number in document 01's table, and its place.
#[derive(Clone, Copy)]
pub struct Refused {
    pub number: u32,
    pub place: usize,
}

impl fmt::Display for Refused {
    ghost output = { λ r. Some (refused_text r.number r.place) };

    fn fmt<W: fmt::Write>(&self, f: &mut fmt::Formatter<W>) -> fmt::Result {
        let number = self.number;
        let place = self.place;
        write!(f, " refused {number} {place}")
    }
}

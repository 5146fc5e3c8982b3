//! A length of time with the unit in which it is shown.
ghost use Rattle.std.specs.Prelude.{◌≡◌, ◌<◌, ◌%◌, ◌^◌, ◌++◌, [], codes, IfSome, MatchOption};
ghost use Rattle.life_core.specs.Texts.{last_digits, fraction_text};

use std::fmt;

/// The unit of a shown latency.
#[derive(Clone, Copy, Debug)]
pub enum LatencyUnit {
    /// Seconds, with the part of a second that is over as digits after a point.
    Seconds,
    /// Whole milliseconds.
    Millis,
    /// Whole microseconds.
    Micros,
    /// Nanoseconds.
    Nanos,
}

/// The digits after a point, with no zero at their end.
#[derive(Clone, Copy)]
pub struct Fraction {
    /// The digits, as a number.
    pub number: u64,
    /// How many digits there are. Those in front of the number's own are zeros.
    pub width: usize,
}

impl Fraction {
    /// The part of a second by which so many nanoseconds are more than whole seconds, if there is one.
    pub fn of_second(nanos: u64) -> Option<Fraction>
        ensures text { MatchOption result (fraction_text nanos ≡ [])
            (λ fraction. fraction_text nanos ≡ codes "." ++ last_digits fraction.width fraction.number) }
        ensures last { IfSome result (λ fraction. 0 < fraction.number % 10) }
        ensures fits { IfSome result (λ fraction. fraction.number < 10 ^ fraction.width) }
    {
        let mut number = nanos % 1_000_000_000;
        if number == 0 {
            return None;
        }
        let mut width = 9;
        while number % 10 == 0 {
            number /= 10;
            width -= 1;
        }
        Some(Fraction { number, width })
    }
}

/// A length of time in nanoseconds, and the unit in which it is shown.
#[derive(Clone, Copy, Debug)]
pub struct Latency {
    /// The unit in which it is shown.
    pub unit: LatencyUnit,
    /// The length, in nanoseconds.
    pub nanos: u64,
}

impl fmt::Display for Latency {
    ghost use Rattle.std.specs.Prelude.{Some};
    ghost use Rattle.life_core.specs.Texts.{latency_text};

    ghost output = { λ latency. Some (latency_text latency) };

    fn fmt<W: fmt::Write>(&self, f: &mut fmt::Formatter<W>) -> fmt::Result {
        match self.unit {
            LatencyUnit::Seconds => {
                let seconds = self.nanos / 1_000_000_000;
                match Fraction::of_second(self.nanos) {
                    None => write!(f, "{seconds} s"),
                    Some(Fraction { number, width }) => {
                        write!(f, "{seconds}.{number:0width$} s")
                    }
                }
            }
            LatencyUnit::Millis => write!(f, "{} ms", self.nanos / 1_000_000),
            LatencyUnit::Micros => write!(f, "{} μs", self.nanos / 1_000),
            LatencyUnit::Nanos => write!(f, "{} ns", self.nanos),
        }
    }
}

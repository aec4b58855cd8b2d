// The numbers of lines, as what a call takes and answers. An f64 stands in a line as its 64-bit pattern.
use std::fmt;

const SIGN: u64 = 0x8000_0000_0000_0000;

const INFINITE: u64 = 0x7ff0_0000_0000_0000;

const NAN: u64 = 0x7ff8_0000_0000_0000;

// The f64s that are printed in tenths: up to 999.8.
const TENTHS: u32 = 9999;

// A type of arguments and of values.
pub trait Number: Copy {
    // The argument that a line gives, if it is not too large for its field.
    fn read(number: u64) -> Option<Self>;

    fn value(self) -> Value;
}

// What a call answers.
#[derive(Clone, Copy)]
pub enum Value {
    Whole(u64),
    Float(f64),
}

impl Value {
    // The number that a line has for it.
    pub(crate) fn number(self) -> u64 {
        match self {
            Value::Whole(number) => number,
            Value::Float(x) => pattern_of(x),
        }
    }
}

impl fmt::Display for Value {
    fn fmt<W: fmt::Write>(&self, f: &mut fmt::Formatter<W>) -> fmt::Result {
        let number = self.number();
        let tenths = match self {
            Value::Whole(_) => None,
            Value::Float(_) => (0..TENTHS).find(|tenths| pattern_of_tenths(*tenths) == number),
        };
        match tenths {
            Some(tenths) => {
                let whole = tenths / 10;
                let tenth = tenths % 10;
                write!(f, "{whole}.{tenth}")
            }
            None => write!(f, "{number}"),
        }
    }
}

impl Number for u8 {
    fn read(number: u64) -> Option<Self> {
        u8::try_from(number).ok()
    }

    fn value(self) -> Value {
        Value::Whole(self as u64)
    }
}

impl Number for u32 {
    fn read(number: u64) -> Option<Self> {
        u32::try_from(number).ok()
    }

    fn value(self) -> Value {
        Value::Whole(self as u64)
    }
}

impl Number for u64 {
    fn read(number: u64) -> Option<Self> {
        Some(number)
    }

    fn value(self) -> Value {
        Value::Whole(self)
    }
}

impl Number for usize {
    fn read(number: u64) -> Option<Self> {
        usize::try_from(number).ok()
    }

    fn value(self) -> Value {
        Value::Whole(self as u64)
    }
}

impl Number for f64 {
    fn read(pattern: u64) -> Option<Self> {
        Some(float_of(pattern))
    }

    fn value(self) -> Value {
        Value::Float(self)
    }
}

// The language's f64 has one NaN, and that no pattern: it is read from every pattern of a NaN, and
// answered as one of them.
fn float_of(pattern: u64) -> f64 {
    if pattern % SIGN > INFINITE {
        return 0.0 / 0.0;
    }
    f64::from_bits(pattern)
}

fn pattern_of(x: f64) -> u64 {
    if x.is_nan() {
        return NAN;
    }
    f64::to_bits(x)
}

pub(crate) fn pattern_of_tenths(tenths: u32) -> u64 {
    pattern_of(tenths as f64 / 10.0)
}

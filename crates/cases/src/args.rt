// The numbers of a line as the values that a call takes.
use squares::Direction;
use std::slice::Iter;

// A value that stands in a line as one number or more.
pub trait Arg: Copy {
    // Takes its numbers from those that are left of a line. None where there are too few, or one is past its range.
    fn take(rest: &mut Iter<'_, u64>) -> Option<Self>;
}

// The value that the numbers are, with none left over.
pub fn parse<T: Arg>(numbers: &[u64]) -> Option<T> {
    let mut rest = numbers.iter();
    let value = T::take(&mut rest)?;
    if rest.next().is_some() {
        return None;
    }
    Some(value)
}

// What a call answers to the two values that the numbers are.
pub fn of_two<A: Arg, B: Arg, T, F: Fn(A, B) -> T>(numbers: &[u64], call: F) -> Option<T>
    requires { F.IsAlwaysCallable call }
{
    let (first, second) = parse(numbers)?;
    Some(call(first, second))
}

impl Arg for u64 {
    fn take(rest: &mut Iter<'_, u64>) -> Option<Self> {
        rest.next().copied()
    }
}

// These two have an impl each: one for all that convert from u64 could meet those of arrays and of pairs.
impl Arg for u16 {
    fn take(rest: &mut Iter<'_, u64>) -> Option<Self> {
        u16::try_from(*rest.next()?).ok()
    }
}

impl Arg for u8 {
    fn take(rest: &mut Iter<'_, u64>) -> Option<Self> {
        u8::try_from(*rest.next()?).ok()
    }
}

impl Arg for bool {
    fn take(rest: &mut Iter<'_, u64>) -> Option<Self> {
        match rest.next()? {
            0 => Some(false),
            1 => Some(true),
            _ => None,
        }
    }
}

impl Arg for Direction {
    fn take(rest: &mut Iter<'_, u64>) -> Option<Self> {
        match rest.next()? {
            1 => Some(Direction::Down),
            2 => Some(Direction::Up),
            3 => Some(Direction::Left),
            4 => Some(Direction::Right),
            _ => None,
        }
    }
}

// Of one value or more.
impl<T: Arg, const N: usize> Arg for [T; N] {
    fn take(rest: &mut Iter<'_, u64>) -> Option<Self> {
        let first = T::take(rest)?;
        let mut values = [first; N];
        for value in values.iter_mut().skip(1) {
            *value = T::take(rest)?;
        }
        Some(values)
    }
}

impl<A: Arg, B: Arg> Arg for (A, B) {
    fn take(rest: &mut Iter<'_, u64>) -> Option<Self> {
        Some((A::take(rest)?, B::take(rest)?))
    }
}

impl<A: Arg, B: Arg, C: Arg> Arg for (A, B, C) {
    fn take(rest: &mut Iter<'_, u64>) -> Option<Self> {
        Some((A::take(rest)?, B::take(rest)?, C::take(rest)?))
    }
}

// Which call a line asks for. The calls themselves stand in one file for each group of ops. An op goes by its number in
// docs/CASES.md: it stands once in its file, beside its call, and goes no further, so that names for the ops would only be one
// more list. An op, its numbers and the answer go down together: they are the call itself, and a struct of the three would only be
// taken apart in each file.
use crate::answer::{Answer, Value};
use crate::{change_ops, number_ops, query_ops, set_ops, text_ops};
use position::Position;

// Puts the answer to a line of numbers. None where the line is not of the form.
pub fn answer(numbers: &[u64], answer: &mut Answer) -> Option<()> {
    let (op, args) = numbers.split_first()?;
    let op = *op;
    match op {
        1..=14 => set_ops::answer(op, args, answer),
        15..=17 => number_ops::answer(op, args, answer),
        20 if args.is_empty() => Position::startpos().put(answer),
        21 if args.is_empty() => Position::empty().put(answer),
        22..=33 => query_ops::answer(op, args, answer),
        34..=38 | 49 => change_ops::answer(op, args, answer),
        39 => text_ops::text(args, answer),
        90 => text_ops::game(args, answer),
        _ => None,
    }
}

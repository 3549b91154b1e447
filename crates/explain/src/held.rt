// The checks that held before the one that did not: a line each, and one for all checks of a field.
use crate::form::Form;
use crate::order::{field_of, first_check, next_check};
use crate::requirement::{BareRequirement, Requirement};
use crate::subject::Subject;
use checks::CheckName;
use std::{fmt, iter};

// No input has so many checks.
const MOST: usize = 65;

// A check and, where it is about a field, those after it that are about the same field.
#[derive(Clone, Copy)]
struct HeldLine<'a> {
    first: Requirement<'a>,
    broken: CheckName,
}

impl<'a> fmt::Display for HeldLine<'a> {
    fn fmt<W: fmt::Write>(&self, f: &mut fmt::Formatter<W>) -> fmt::Result {
        let Requirement { check, subject } = self.first;
        let broken = self.broken;
        write!(f, "{}", self.first)?;
        let field = field_of(check);
        let next = |c: &CheckName| next_check(*c, subject);
        let others = iter::successors(next(&check), next);
        let others = others.take_while(|c| field.is_some() && field_of(*c) == field);
        for check in others.take_while(|c| *c != broken).take(MOST) {
            write!(f, ", {}", BareRequirement(Requirement { check, subject }))?;
        }
        Ok(())
    }
}

pub(crate) fn write_held<F: Form, W: fmt::Write>(
    to: &mut W,
    broken: CheckName,
    subject: Subject,
) -> fmt::Result {
    let first = first_check(subject);
    if first == broken {
        return F::item(to, "none; it is the first check");
    }
    let checks = iter::successors(Some(first), |c| next_check(*c, subject));
    let held = checks.take_while(|c| *c != broken);
    let mut before = None;
    for check in held.take(MOST) {
        let field = field_of(check);
        if field.is_none() || field != before {
            let first = Requirement { check, subject };
            F::item(to, HeldLine { first, broken })?;
        }
        before = field;
    }
    Ok(())
}

//! Marks: what stands for the head of each lane, so that heads are found in order.
ghost use Rattle.std.specs.Prelude.{◌≡◌, ◌<◌, ◌&&◌, ◌||◌, IfSome, length, not, true};
ghost use Rattle.std.specs.Option.{IfNone};
ghost use Rattle.q_sorted.specs.declared.ticket.Ticket.{Ticket};
ghost use Rattle.q_heads.specs.Lanes.{is_same, is_the, stands};
ghost use Rattle.q_heads.specs.Marks.{are_same, mark_in, mark_of, with_mark, without};

use q_sorted::{Sorted, Ticket};

/// What stands for the ticket: its key and its lane, in the class.
pub(crate) fn mark_of(class: u32, ticket: &Ticket) -> Ticket
    ensures { result ≡ mark_of class ticket.now }
{
    Ticket {
        key: ticket.key,
        group: class,
        item: ticket.group,
    }
}

/// The mark of the lane's head.
pub(crate) fn mark_in(tickets: &Sorted, class: u32, lane: u32) -> Option<Ticket>
    ensures { result ≡ mark_in class lane tickets.now.items }
{
    let head = tickets.first_of(lane)?;
    Some(mark_of(class, &head))
}

fn is_same(a: &Ticket, b: &Ticket) -> bool
    ensures { result ≡ is_same a.now b.now }
{
    a.group == b.group && a.key == b.key && a.item == b.item
}

/// Whether both are the same mark, or there is neither.
fn are_same(a: Option<Ticket>, b: Option<Ticket>) -> bool
    ensures { result ≡ are_same a b }
{
    match (a, b) {
        (Some(a), Some(b)) => is_same(&a, &b),
        (None, None) => true,
        _ => false,
    }
}

/// Takes the mark out, where there is one.
fn take_out(marks: &mut Sorted, mark: Option<Ticket>)
    ensures { marks.new ≡ record marks.old { items = without mark marks.old.items } }
{
    if let Some(mark) = mark {
        marks.remove(&mark);
    }
}

/// Puts the mark in, where there is one.
fn put_in(marks: &mut Sorted, mark: Option<Ticket>)
    requires { IfSome mark (λ _. length marks.old.items < marks.old.room) }
    ensures { marks.new ≡ record marks.old { items = with_mark mark marks.old.items } }
{
    if let Some(mark) = mark {
        marks.insert(mark);
    }
}

/// Puts one mark in the place of another, where there are any.
pub(crate) fn renew(marks: &mut Sorted, from: Option<Ticket>, to: Option<Ticket>)
    requires there { IfSome from (λ mark. stands mark marks.old.items ≡ true) }
    requires room { IfNone from (length marks.old.items < marks.old.room) }
    ensures stand { (x : Ticket) → stands x marks.new.items
        ≡ (is_the x to || stands x marks.old.items && not (is_the x from)) }
    ensures room { marks.new.room ≡ marks.old.room }
{
    if are_same(from, to) {
        return;
    }
    marks.stand_sorted();
    take_out(marks, from);
    put_in(marks, to);
}

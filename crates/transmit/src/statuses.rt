// The TX status stack: at most 31 entries, oldest first. It is lent to `push` and `pop`, which lend its entries and its count on, so that they change in the place where the card keeps them.
ghost use Rattle.std.specs.Prelude.{◌≡◌, length};
ghost use Rattle.transmit_rules.specs.Stack.{both, stack, Room, Few, Stacks, added, rest};

use transmit_rules::Statuses;

// One more status, the newest, in the lent stack.
pub fn push(s: &mut Statuses, v: u8)
    requires { Room s.old }
    ensures { Stacks s.new (added v (stack s.old)) }
{
    put_newest(&mut s.entries, &mut s.count, v);
}

// The oldest status goes from the lent stack; an empty one stays.
pub fn pop(s: &mut Statuses)
    requires { Few s.old }
    ensures { Stacks s.new (rest (stack s.old)) }
{
    take_oldest(&mut s.entries, &mut s.count);
}

// One entry and the count change. That 31 are lent is asked for: behind a reference an array does not tell its length.
fn put_newest(entries: &mut [u8; 31], count: &mut usize, v: u8)
    requires { (length entries.old ≡ 31) × Room (both entries.old count.old) }
    ensures { Stacks (both entries.new count.new) (added v (stack (both entries.old count.old))) }
{
    let n = *count;
    entries[n] = v;
    *count = n + 1;
}

// The entries behind the oldest move up by one.
fn take_oldest(entries: &mut [u8; 31], count: &mut usize)
    requires { (length entries.old ≡ 31) × Few (both entries.old count.old) }
    ensures { Stacks (both entries.new count.new) (rest (stack (both entries.old count.old))) }
{
    let n = *count;
    if n == 0 {
        return;
    }
    entries.copy_within(1..n, 0);
    *count = n - 1;
}

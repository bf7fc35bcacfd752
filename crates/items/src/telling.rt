// What the items of a service answer and leave: a refusal for want of accesses, any other end, the report of a packet.
ghost use Rattle.std.specs.Prelude.{◌≡◌, Err, Some};
ghost use Rattle.refusal.specs.declared.Refusal.TheVariants.{BudgetShort};
ghost use Rattle.driver_rules.specs.Driver.{with_error};
ghost use Rattle.driver_rules.specs.Items.{reports};

use card_rules::Card;
use driver_rules::{Driver, Item, Served};
use refusal::Refusal;

// Budget short: what lacks its accesses isn't begun.
pub fn short(c: Card, d: Driver, left: usize) -> Served
    ensures { result ≡ record { driver = d; card = c; answer = Some (Err BudgetShort); left = left } }
{
    ended(c, d, Err(Refusal::BudgetShort), left)
}

// An item has come to its end.
pub fn ended(c: Card, d: Driver, answer: Result<Item, Refusal>, left: usize) -> Served
    ensures { result ≡ record { driver = d; card = c; answer = Some answer; left = left } }
{
    Served {
        driver: d,
        card: c,
        answer: Some(answer),
        left,
    }
}

// Whether an error was seen.
pub fn with_error(d: Driver, error: bool) -> Driver
    ensures { result ≡ with_error error d }
{
    Driver { error, ..d }
}

// The oldest unreported ticket and the status, or the status alone.
pub fn told(c: Card, d: Driver, status: u16, left: usize) -> Served
    ensures { result ≡ record { driver = (reports status d).driver; card = c; answer = Some (reports status d).answer; left = left } }
{
    let waiting = d.unreported;
    if 0 < waiting {
        let ticket = d.sent.wrapping_sub(u16::from(waiting));
        let next = Driver {
            unreported: waiting - 1,
            ..d
        };
        return ended(c, next, Ok(Item::Reported(ticket, status)), left);
    }
    ended(c, d, Ok(Item::Status(status)), left)
}

// The search over the slice. A look at each card enters its address on a roll; the rounds are decided on the roll; and each card goes through them by itself, hearing the addresses that the bus carries.
ghost use Rattle.std.specs.Prelude.{◌≡◌, ◌≤◌, length};
ghost use Rattle.port_rules.specs.Search.{all_ones};
ghost use Rattle.found.specs.Theorems.{All};
ghost use Rattle.lent_port.specs.Roll.{takes_part, Worded, least as least_of, struck as struck_of, through as through_of, searched_by};
ghost use Rattle.lent_port.specs.Steps.{entered, Room, Finishes, Finds};

use crate::card::{call_up, hear, round};
use idport::id_write;
use port_rules::IdState;

// What 48 reads give where no card drives.
const ALL_ONES: u64 = 0xFFFF_FFFF_FFFF;

// Words 00h, 01h, 02h as one number; all ones from a card in ID_CMD at another port.
fn takes_part(card: IdState, x: u8) -> u64
    ensures { (result ≡ takes_part x card) × Worded card }
{
    let w0 = u64::from(card.words[0]);
    let w1 = u64::from(card.words[1]);
    let w2 = u64::from(card.words[2]);
    if card.command & (x != card.port) {
        return ALL_ONES;
    }
    (w0 * 65536 + w1) * 65536 + w2
}

// The address with which each card takes part; all ones in the other places.
fn roll(cards: &[IdState], x: u8) -> [u64; 8]
    requires { length cards.now ≤ 8 }
    ensures { (result ≡ entered x cards.now) × All Worded cards.now }
{
    let mut addresses = [ALL_ONES; 8];
    for (i, card) in cards.iter().enumerate() {
        addresses[i] = takes_part(*card, x);
    }
    addresses
}

// What the bus carries: the least address.
fn least(addresses: [u64; 8]) -> u64
    ensures { result ≡ least_of addresses }
{
    addresses
        .iter()
        .fold(ALL_ONES, |least, address| least.min(*address))
}

// The survivor is tagged: it takes part no more.
fn struck(mut addresses: [u64; 8], address: u64) -> [u64; 8]
    ensures { result ≡ struck_of address addresses }
{
    for x in addresses.iter_mut() {
        *x = if *x == address { ALL_ONES } else { *x };
    }
    addresses
}

// The addresses of those that take part still, those found so far, and the accesses made.
// The seven places and their count are those of the answer (`port_rules::AfterSearch`), which the C interface and the rule of fixed memory need.
#[derive(Clone, Copy)]
pub struct Progress {
    pub left: [u64; 8],
    pub addresses: [u64; 7],
    pub count: usize,
    pub accesses: usize,
}

impl Progress {
    // Forty-eight ones end the search; otherwise the survivor is tagged, and the same search runs with one tag fewer.
    fn rounds(mut self, free: usize) -> Progress
        requires { Room free self }
        ensures { Finishes free self result }
    {
        if free == 0 {
            return self;
        }
        let left = self.left;
        let address = least(left);
        if address == ALL_ONES {
            self.accesses += 308;
            return self;
        }
        let n = self.count;
        let rest = struck(left, address);
        self.left = rest;
        self.addresses[n] = address;
        self.count = n + 1;
        self.accesses += 309;
        self.rounds(free - 1)
    }
}

// The search over the cards, as the roll decides it. The rounds begin with seven tags free, after two zeros, sequence and D0h.
pub fn search(cards: &[IdState], x: u8) -> Progress
    requires { length cards.now ≤ 8 }
    ensures { Finds x cards.now result }
{
    let left = roll(cards, x);
    let begun = Progress {
        left,
        addresses: [0; 7],
        count: 0,
        accesses: 258,
    };
    begun.rounds(7)
}

// One card through the rounds: each reads an address and sets the next tag, and the last reads all ones, if a tag is left.
fn through(card: IdState, x: u8, addresses: &[u64]) -> IdState
    requires { length addresses.now ≤ 7 }
    ensures { result ≡ through_of x 7 addresses.now card }
{
    let mut s = card;
    for (i, address) in addresses.iter().enumerate() {
        s = round(s, x, *address, (i + 1) as u8);
    }
    if addresses.len() < 7 {
        let called = call_up(s, x);
        return hear(called, x, ALL_ONES);
    }
    s
}

// One card after the search: two zeros, sequence, D0h; then the rounds.
#[tactic(auto, unfolding(crate::specs::Roll::searched_by))]
pub fn searched(card: IdState, x: u8, addresses: &[u64]) -> IdState
    requires { length addresses.now ≤ 7 }
    ensures { result ≡ searched_by x addresses.now card }
{
    let called = call_up(card, x);
    let cleared = id_write(called, x, 0xD0);
    through(cleared, x, addresses)
}

#![tactic(auto)]
// The register map: what a word read gives, window by window. A register is told by its offset, as the manual tables it; an enum of offsets would say each number twice.
ghost use Rattle.std.specs.Prelude.{◌≡◌, ◌*◌, ◌-◌, ◌%◌, ◌≤◌};
ghost use Rattle.bits.specs.Bits.{has, weigh};
ghost use Rattle.receive_rules.specs.Reading.{rx_free};
ghost use Rattle.transmit_rules.specs.Outcome.{top};
ghost use Rattle.card_rules.specs.Room.{rx_room, tx_free};
ghost use Rattle.card_rules.specs.Read.{window0, window1, window2, window3, window5, word_at};

use regs::Seen;

// TX Status in the high byte of a word.
fn tx_status(s: &Seen) -> u16
    ensures { result ≡ top s.now.tx.reports.statuses * 256 }
{
    bits::wide(transmit::top_status(s.card.transmit.outcomes)) * 256
}

// TX Free.
fn tx_free(s: &Seen) -> u16
    ensures { result ≡ tx_free s.now }
{
    transmit::tx_free(
        s.ram,
        s.dir,
        regs::tx_size(s.card.config.second),
        s.card.transmit,
    ) as u16
}

// RX Free.
fn rx_free(s: &Seen) -> u16
    ensures { result ≡ rx_free (rx_room s.now) s.now.rx.frames }
{
    receive::rx_free(
        s.ram,
        s.dir,
        regs::rx_size(s.card.config.second),
        s.card.receive,
    ) as u16
}

// Window 0.
fn read_0(s: &Seen, o: u16) -> u16
    ensures { result ≡ window0 o s.now }
{
    match o {
        0x00 => 0x6d50,
        0x02 => s.card.config.product,
        0x04 => 0x4d00 + bits::weight_if(1, s.card.config.enabled),
        0x06 => s.card.id.address,
        0x08 => s.card.config.resource,
        0x0a => bits::pair(s.card.id.tag, s.card.prom.last),
        0x0c => s.card.id.shift,
        _ => 0,
    }
}

// Window 1 but for the data port.
fn read_1(s: &Seen, o: u16) -> u16
    requires { 4 ≤ o }
    ensures { result ≡ window1 o s.now }
{
    match o {
        0x08 => s.rx_status(),
        0x0a => tx_status(s),
        0x0c => tx_free(s) / 4 * 4,
        _ => 0,
    }
}

// Window 2.
fn read_2(s: &Seen, o: u16) -> u16
    requires { o % 2 ≡ 0 }
    ensures { result ≡ window2 o s.now }
{
    if o < 6 {
        let i = o as usize;
        return bits::pair(s.card.config.station[i + 1], s.card.config.station[i]);
    }
    0
}

// RAM WIDTH, bit 3, is hard-wired to 0.
fn byte_wide(w: u16) -> u16
    ensures { result ≡ w - weigh 8 (has 8 w) }
{
    if bits::has(w, 8) {
        return w - 8;
    }
    w
}

// Window 3.
fn read_3(s: &Seen, o: u16) -> u16
    ensures { result ≡ window3 o s.now }
{
    match o {
        0x00 => byte_wide(s.card.config.first),
        0x02 => s.card.config.second,
        0x0a => rx_free(s),
        0x0c => tx_free(s),
        _ => 0,
    }
}

// Window 5.
fn read_5(s: &Seen, o: u16) -> u16
    ensures { result ≡ window5 o s.now }
{
    match o {
        0x00 => s.card.transmit.outcomes.sender.start,
        0x02 => s.card.transmit.outcomes.sender.level,
        0x06 => s.card.receive.receiver.threshold,
        0x08 => s.card.select.filter,
        0x0a => s.card.select.mask,
        0x0c => s.card.select.zero,
        _ => 0,
    }
}

// A register of the selected window, other than the data port.
fn read_in(s: &Seen, o: u16) -> u16
    requires { (o % 2 ≡ 0) × (s.now.select.window ≡ 1 → 4 ≤ o) × (o ≡ 0x0E → ⊥) }
    ensures { result ≡ word_at o s.now }
{
    match s.card.select.window {
        0 => read_0(s, o),
        1 => read_1(s, o),
        2 => read_2(s, o),
        3 => read_3(s, o),
        5 => read_5(s, o),
        _ => 0,
    }
}

// The word at an even offset: Status at 0Eh, or a register.
pub fn word_at(s: &Seen, o: u16) -> u16
    requires { (o % 2 ≡ 0) × (s.now.select.window ≡ 1 → 4 ≤ o) }
    ensures { result ≡ word_at o s.now }
{
    if o == 0x0e {
        return s.status_word();
    }
    read_in(s, o)
}

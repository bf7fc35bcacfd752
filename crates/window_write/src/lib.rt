#![tactic(auto)]
// The register map: what a write does, window by window. A write covers both bytes of a register, its low byte or its high byte.
// Registers are told by their offsets, as in `window_read`.
ghost use Rattle.std.specs.Prelude.{◌≡◌, ◌%◌, ◌<◌};
ghost use Rattle.transmit_rules.specs.OutcomesView.{Stacked};
ghost use Rattle.card_rules.specs.Update.{id_address, id_shift, config_resource, config_first};
ghost use Rattle.card_rules.specs.Groups.{card_id, card_config};
ghost use Rattle.card_rules.specs.View.{view, Sound, Is, Does};
ghost use Rattle.transmit_rules.specs.Outcome.{pop};
ghost use Rattle.card_rules.specs.Command.{reported};
ghost use Rattle.card_rules.specs.Write.{writing, mixed as mixed_of, covers_low, covers_high, controlled, eeprom as eeprom_of, on_low, write0, write1, write2, write3, resplit as resplit_of, write as write_of};

use card_rules::{Card, Lanes, Setup};

mod setup; // setup.rt: the EEPROM behind window 0: its commands, at once

// A register as a write leaves it.
fn mixed(l: Lanes, v: u16, old: u16) -> u16
    ensures { result ≡ mixed_of l v old }
{
    match l {
        Lanes::Both => v,
        Lanes::Low => old / 256 * 256 + v % 256,
        Lanes::High => v % 256 * 256 + old % 256,
    }
}

fn covers_low(l: Lanes) -> bool
    ensures { result ≡ covers_low l }
{
    matches!(l, Lanes::Both | Lanes::Low)
}

fn covers_high(l: Lanes) -> bool
    ensures { result ≡ covers_high l }
{
    matches!(l, Lanes::Both | Lanes::High)
}

// Configuration Control.
fn control(mut c: Card, l: Lanes, v: u16) -> Card
    ensures { Does c result (on_low l controlled v) }
{
    if !covers_low(l) {
        return c;
    }
    let low = v % 256;
    if bits::has(low, 4) {
        return regs::reset(c);
    }
    c.config.enabled = bits::has(low, 1);
    c
}

// Address Configuration.
fn set_address(mut c: Card, v: u16) -> Card
    ensures { result ≡ card_id (id_address v c.id) c }
{
    c.id.address = v;
    c
}

// Resource Configuration.
fn set_resource(mut c: Card, v: u16) -> Card
    ensures { result ≡ card_config (config_resource v c.config) c }
{
    c.config.resource = v;
    c
}

// The EEPROM command.
fn eeprom(c: Card, l: Lanes, v: u16) -> Card
    ensures { Does c result (on_low l eeprom_of v) }
{
    if !covers_low(l) {
        return c;
    }
    let Setup { id, prom } = setup::prom_command((v % 256) as u8, c.id, c.prom);
    Card { id, prom, ..c }
}

// EEPROM data.
fn set_shift(mut c: Card, v: u16) -> Card
    ensures { result ≡ card_id (id_shift v c.id) c }
{
    c.id.shift = v;
    c
}

// Window 0.
fn write_0(c: Card, l: Lanes, o: u16, v: u16) -> Card
    ensures { Does c result (write0 l o v) }
{
    match o {
        0x04 => control(c, l, v),
        0x06 => set_address(c, mixed(l, v, c.id.address)),
        0x08 => set_resource(c, mixed(l, v, c.config.resource)),
        0x0a => eeprom(c, l, v),
        0x0c => set_shift(c, mixed(l, v, c.id.shift)),
        _ => c,
    }
}

// A word of the data port.
fn write_data(ram: &mut [u8], dir: &mut [u16], c: Card, v: u16) -> Card
    requires { Sound c ram.old dir.old }
    ensures { Is result ram.new dir.new (writing v (view c ram.old dir.old)) }
{
    Card {
        transmit: transmit::write_data(ram, dir, regs::tx_size(c.config.second), c.transmit, v),
        ..c
    }
}

// The pop of TX Status.
fn pop_status(c: Card) -> Card
    requires { Stacked c.transmit.outcomes }
    ensures { Does c result (reported pop) }
{
    Card {
        transmit: transmit::pop_status(c.transmit),
        ..c
    }
}

// Window 1: the data port, and the pop of TX Status.
fn write_1(ram: &mut [u8], dir: &mut [u16], c: Card, l: Lanes, o: u16, v: u16) -> Card
    requires { Sound c ram.old dir.old }
    ensures { Is result ram.new dir.new (write1 l o v (view c ram.old dir.old)) }
{
    if o < 4 {
        return write_data(ram, dir, c, v);
    }
    if (o == 0x0a) & covers_high(l) {
        return pop_status(c);
    }
    c
}

// Window 2: the station address.
fn write_2(mut c: Card, l: Lanes, o: u16, v: u16) -> Card
    requires { o % 2 ≡ 0 }
    ensures { Does c result (write2 l o v) }
{
    if o < 6 {
        let i = o as usize;
        let mut station = c.config.station;
        let w = mixed(l, v, bits::pair(station[i + 1], station[i]));
        station[i] = (w % 256) as u8;
        station[i + 1] = (w / 256) as u8;
        c.config.station = station;
        return c;
    }
    c
}

// The first Internal Configuration word.
fn set_first(mut c: Card, v: u16) -> Card
    ensures { result ≡ card_config (config_first v c.config) c }
{
    c.config.first = v;
    c
}

// The second: a split written with a FIFO in use does nothing.
fn resplit(mut c: Card, v: u16) -> Card
    ensures { Does c result (resplit_of v) }
{
    let fifo = c.transmit.fifo;
    if (0 < c.receive.frames) | (0 < fifo.packets) | (0 < fifo.words) {
        c.config.second = v / 4 * 4 + c.config.second % 4;
        return c;
    }
    c.config.second = v;
    c
}

// Window 3.
fn write_3(c: Card, l: Lanes, o: u16, v: u16) -> Card
    ensures { Does c result (write3 l o v) }
{
    match o {
        0x00 => set_first(c, mixed(l, v, c.config.first)),
        0x02 => resplit(c, mixed(l, v, c.config.second)),
        _ => c,
    }
}

// A register of the selected window.
pub fn write(ram: &mut [u8], dir: &mut [u16], c: Card, l: Lanes, o: u16, v: u16) -> Card
    requires { Sound c ram.old dir.old × (o % 2 ≡ 0) }
    ensures { Is result ram.new dir.new (write_of l o v (view c ram.old dir.old)) }
{
    match c.select.window {
        0 => write_0(c, l, o, v),
        1 => write_1(ram, dir, c, l, o, v),
        2 => write_2(c, l, o, v),
        3 => write_3(c, l, o, v),
        _ => c,
    }
}

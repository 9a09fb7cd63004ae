// The lines of a service that iwd has no place for, by the row of the table of places that keeps its settings: each answer is
// a line, where there is one.
ghost use Rattle.std.specs.Prelude.{◌≡◌};
ghost use Rattle.std.specs.Bool.{then_some};
ghost use Rattle.places.specs.KeySlots.{RowInTable, key_slot};
ghost use Rattle.values.specs.Rows.{RowOf, RowGives};
ghost use Rattle.mover.specs.Moves.{unplaced, earliest};
ghost use Rattle.mover.specs.Places.{earlier_of, slot_line, given_slots, ipv4_lines};

use joins::parts::{is_foreign, service_ipv4, service_ipv6};
use named_words::Word;
use places::rows::{is_word, line_of, taken};
use places::{KeyName, Places};
use rules::Group;
use text::Dialect;
use written::parts;

// The earlier of two lines, or the one that there is; of more lines a chain, for the proof of the least of an array of them
// (`flatten` and `min`) does not close by itself.
fn earlier(a: Option<usize>, b: Option<usize>) -> Option<usize>
    ensures { result ≡ earlier_of a b }
{
    match (a, b) {
        (Some(l), Some(m)) => Some(l.min(m)),
        _ => a.or(b),
    }
}

// The line of a key, where a test of its value holds.
fn line_if(holds: bool, x: &Places, row: usize, k: KeyName) -> Option<usize>
    requires { RowInTable x.now row }
    ensures { result ≡ then_some holds (key_slot x.now row k).line }
{
    holds.then_some(line_of(x, row, k))
}

// The line of a key that is given.
fn given(x: &Places, row: usize, k: KeyName) -> Option<usize>
    requires { RowInTable x.now row }
    ensures { result ≡ slot_line x.now row k }
{
    line_if(taken(x, row, k), x, row, k)
}

// MAC, IPv6.Privacy, SearchDomains and Timeservers, whatever they say.
fn given_line(x: &Places, row: usize) -> Option<usize>
    requires { RowInTable x.now row }
    ensures { result ≡ given_slots x.now row }
{
    let domains = given(x, row, KeyName::SearchDomains);
    let lists = earlier(domains, given(x, row, KeyName::Timeservers));
    let privacy = earlier(given(x, row, KeyName::Privacy), lists);
    earlier(given(x, row, KeyName::Mac), privacy)
}

// Those, IPv4 off or static without gateway, and IPv6 static without gateway.
fn numbers_line(file: &[u8], x: &Places, row: usize) -> Option<usize>
    requires { RowOf Dialect.ConnMan file.now x.now row Group.Service }
    ensures { RowGives Dialect.ConnMan file.now x.now row Group.Service (λ at. earliest (ipv4_lines at)) result }
{
    let given = given_line(x, row);
    let ipv6 = service_ipv6(file, x, row);
    let ipv6_placed = parts::ipv6_placed(ipv6.method, ipv6.has_gateway);
    let behind = earlier(line_if(!ipv6_placed, x, row, KeyName::Ipv6), given);
    let ipv4 = service_ipv4(file, x, row);
    let ipv4_placed = parts::ipv4_placed(ipv4.method, ipv4.has_gateway);
    earlier(line_if(!ipv4_placed, x, row, KeyName::Ipv4), behind)
}

// The earliest of them all: those, Security wep or ieee8021x, and Type ethernet.
pub fn unplaced_line(file: &[u8], x: &Places, row: usize) -> Option<usize>
    requires { RowOf Dialect.ConnMan file.now x.now row Group.Service }
    ensures { RowGives Dialect.ConnMan file.now x.now row Group.Service (λ at. earliest (unplaced at)) result }
{
    let numbers = numbers_line(file, x, row);
    let foreign = is_foreign(x, row);
    let security = earlier(line_if(foreign, x, row, KeyName::Security), numbers);
    let wired = is_word(x, row, KeyName::Type, Word::Ethernet);
    earlier(line_if(wired, x, row, KeyName::Type), security)
}

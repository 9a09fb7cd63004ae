// The typed value of one key, by its row and its name in the table of places: one reader for each kind of document 01's
// section "Settings and their kinds". It is absent where the row keeps no setting with this key.
//
// A slot that keeps nothing has no bytes, and no kind reads a value from none. A function of one line for each kind, whose contract names
// the kind's definition: of a reader that is handed in, the contract could speak only through what the reader promises (text `Computes`).
#![tactic(auto)]

ghost use Rattle.std.specs.Prelude.{◌≡◌, length};
ghost use Rattle.text.specs.Options.{mapped, or_empty};
ghost use Rattle.addresses.specs.Addresses.{address, addresses, rows};
ghost use Rattle.addressing.specs.Numbers.{numbers_laid};
ghost use Rattle.ipv6.specs.Ipv6.{ipv6};
ghost use Rattle.connman_ipv4.specs.ConnmanIpv4.{ipv4};
ghost use Rattle.ipv6_values.specs.Ipv6Values.{connman_ipv6, with_length};
ghost use Rattle.ipv6_values.specs.Layout.{with_length_laid};
ghost use Rattle.hex_values.specs.HexValues.{mac, ssid, pre_shared_key_of};
ghost use Rattle.put.specs.Texts.{bounded};
ghost use Rattle.entry_lists.specs.EntryLists.{entries};
ghost use Rattle.entry_lists.specs.Places.{entries_laid};
ghost use Rattle.places.specs.KeySlots.{key_slot, bytes_of, RowInTable, ValueInFile};
ghost use Rattle.values.specs.Codes.{choice_by, chosen_by, mask_by};
ghost use Rattle.values.specs.Rows.{MaskIn};

use addresses::Separator;
use addressing::Numbers;
use entry_lists::Entries;
use ipv6_values::WithLength;
use named_words::Word;
use places::rows::{code_of, start_of, value_of};
use places::{KeyName, Places};
use put::Bounded;

// A yes/no by its code. It is no `From` of a number, here and below: the codes are those of the table of places, whose fixed memory is numbers,
// and the crates of the types know nothing of them.
pub fn choice_at(x: &Places, row: usize, k: KeyName) -> Option<bool>
    requires { RowInTable x.now row }
    ensures { result ≡ choice_by (key_slot x.now row k).code }
{
    match code_of(x, row, k) {
        1 => Some(false),
        2 => Some(true),
        _ => None,
    }
}

// A word by its code.
#[tactic(auto, unfolding(crate::specs::Codes::chosen_by))]
pub fn chosen_at(x: &Places, row: usize, k: KeyName) -> Option<Word>
    requires { RowInTable x.now row }
    ensures { result ≡ chosen_by (key_slot x.now row k).code }
{
    match code_of(x, row, k) {
        1 => Some(Word::Wifi),
        2 => Some(Word::Ethernet),
        3 => Some(Word::Disabled),
        4 => Some(Word::Enabled),
        5 => Some(Word::Preferred),
        6 => Some(Word::Psk),
        7 => Some(Word::Ieee8021x),
        8 => Some(Word::None),
        9 => Some(Word::Wep),
        _ => None,
    }
}

pub fn address_at(file: &[u8], x: &Places, row: usize, k: KeyName) -> Option<[u8; 4]>
    requires { ValueInFile file.now x.now row k }
    ensures { result ≡ address (bytes_of file.now x.now row k) }
{
    addresses::numbers::read_address(value_of(file, x, row, k))
}

// A mask's length by its code.
pub fn netmask_at(x: &Places, row: usize, k: KeyName) -> Option<u8>
    requires { MaskIn x.now row k }
    ensures { result ≡ mask_by (key_slot x.now row k).code }
{
    match code_of(x, row, k) {
        0 => None,
        n => Some(n as u8),
    }
}

pub fn ipv4_at(file: &[u8], x: &Places, row: usize, k: KeyName) -> Option<Numbers<4>>
    requires { ValueInFile file.now x.now row k }
    ensures { result ≡ mapped (numbers_laid 4) (ipv4 (bytes_of file.now x.now row k)) }
{
    connman_ipv4::read_ipv4(value_of(file, x, row, k))
}

pub fn ipv6_at(file: &[u8], x: &Places, row: usize, k: KeyName) -> Option<Numbers<16>>
    requires { ValueInFile file.now x.now row k }
    ensures { result ≡ mapped (numbers_laid 16) (connman_ipv6 (bytes_of file.now x.now row k)) }
{
    ipv6_values::read_ipv6(value_of(file, x, row, k))
}

pub fn ipv6_address_at(file: &[u8], x: &Places, row: usize, k: KeyName) -> Option<[u8; 16]>
    requires { ValueInFile file.now x.now row k }
    ensures { result ≡ ipv6 (bytes_of file.now x.now row k) }
{
    ipv6::reading::read_address(value_of(file, x, row, k))
}

pub fn with_length_at(file: &[u8], x: &Places, row: usize, k: KeyName) -> Option<WithLength>
    requires { ValueInFile file.now x.now row k }
    ensures { result ≡ mapped with_length_laid (with_length (bytes_of file.now x.now row k)) }
{
    ipv6_values::read_with_length(value_of(file, x, row, k))
}

pub fn mac_at(file: &[u8], x: &Places, row: usize, k: KeyName) -> Option<[u8; 6]>
    requires { ValueInFile file.now x.now row k }
    ensures { result ≡ mac (bytes_of file.now x.now row k) }
{
    hex_values::read_mac(value_of(file, x, row, k))
}

pub fn key_at(file: &[u8], x: &Places, row: usize, k: KeyName) -> Option<[u8; 32]>
    requires { ValueInFile file.now x.now row k }
    ensures { result ≡ pre_shared_key_of (bytes_of file.now x.now row k) }
{
    hex_values::read_pre_shared_key(value_of(file, x, row, k))
}

pub fn ssid_at(file: &[u8], x: &Places, row: usize, k: KeyName) -> Option<Bounded<32>>
    requires { ValueInFile file.now x.now row k }
    ensures { result ≡ mapped (bounded 32) (ssid (bytes_of file.now x.now row k)) }
{
    hex_values::read_ssid(value_of(file, x, row, k))
}

// How many addresses a list has.
pub fn count_at(sep: Separator, file: &[u8], x: &Places, row: usize, k: KeyName) -> usize
    requires { ValueInFile file.now x.now row k }
    ensures { result ≡ length (or_empty (addresses sep (bytes_of file.now x.now row k))) }
{
    addresses::lists::count_addresses(value_of(file, x, row, k), sep)
}

// The addresses of a list, with zeros behind them.
pub fn servers_at(sep: Separator, file: &[u8], x: &Places, row: usize, k: KeyName) -> [[u8; 4]; 4]
    requires { ValueInFile file.now x.now row k }
    ensures { result ≡ rows (addresses sep (bytes_of file.now x.now row k)) }
{
    addresses::lists::read_addresses(value_of(file, x, row, k), sep)
}

// Stores the addresses of a list, with zeros behind them, and returns how many it has; 0 where it is absent, as the settings' field is.
pub fn list_at(
    out: &mut [[u8; 4]; 4],
    sep: Separator,
    file: &[u8],
    x: &Places,
    row: usize,
    k: KeyName,
) -> usize
    requires { ValueInFile file.now x.now row k }
    ensures { (result ≡ length (or_empty (addresses sep (bytes_of file.now x.now row k))))
        × (out.new ≡ rows (addresses sep (bytes_of file.now x.now row k))) }
{
    addresses::lists::read_list(out, value_of(file, x, row, k), sep)
}

// The entries of a list, by their places in the file.
pub fn entries_at(file: &[u8], x: &Places, row: usize, k: KeyName) -> Option<Entries>
    requires { ValueInFile file.now x.now row k }
    ensures { result ≡ mapped (entries_laid (key_slot x.now row k).start) (entries (bytes_of file.now x.now row k)) }
{
    entry_lists::read_entries(value_of(file, x, row, k), start_of(x, row, k))
}

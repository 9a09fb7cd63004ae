// The dialect of a file by its name, for the programs that are given no other word of it.
ghost use Rattle.std.specs.Prelude.{◌≡◌};
ghost use Rattle.names.specs.Dialects.{dialect_of};

use text::Dialect;

// ConnMan where the name ends in `.config`, else iwd.
pub fn dialect_of(name: &[u8]) -> Dialect
    ensures { result ≡ dialect_of name.now }
{
    if name.len() < 7 {
        return Dialect::Iwd;
    }
    let from = name.len() - 7;
    if text::words::equal(&name[from..], b".config") {
        return Dialect::ConnMan;
    }
    Dialect::Iwd
}

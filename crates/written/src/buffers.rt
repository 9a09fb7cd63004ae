// Buffers that are long enough for every name and every file that is ever written.
ghost use Rattle.std.specs.Prelude.{◌≡◌, replicate};
ghost use Rattle.names.specs.Names.{name_max};
ghost use Rattle.written.specs.GreatestLengths.{file_max};

// How many bytes the longest name has, and the longest file.
pub const NAME_MAX: usize = 70;

pub const FILE_MAX: usize = 944;

pub type NewName = [u8; NAME_MAX];

pub type NewFile = [u8; FILE_MAX];

// A buffer for a name, and one for a file, all zeros: exactly as long as the longest.
pub fn for_name() -> NewName
    ensures { result ≡ replicate name_max 0 }
{
    [0u8; NAME_MAX]
}

pub fn for_file() -> NewFile
    ensures { result ≡ replicate file_max 0 }
{
    [0u8; FILE_MAX]
}

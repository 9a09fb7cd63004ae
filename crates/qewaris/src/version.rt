// Which version of the library this is, and which layout its structs have. The name of the second function carries the layout, so
// that a program made for another one does not link; crate `qewaris_c` hands both to C. The definitions are in specs/Version.
ghost use Rattle.std.specs.Prelude.{◌≡◌};
ghost use Rattle.qewaris.specs.Version.{version, layout};

pub fn qewaris_version() -> u32
    ensures { result ≡ version }
{
    200
}

pub fn qewaris_layout_2() -> u32
    ensures { result ≡ layout }
{
    2
}

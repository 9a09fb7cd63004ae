// The table of bytes: 256 entries, for each byte which of these it is, each a bit of its entry: a letter, a digit, a hex digit, a
// blank, an underscore, a minus, a dot, a space.
//
// The table is a `match` of which the compiler makes 256 bytes of read-only data and one load for each byte. For that
// - no arm has two neighbouring numbers, which would be compared as a range: what is alike has arms of its even and arms of its odd
//   numbers;
// - the keys are the bytes with their highest bit turned: the compiler orders keys as signed numbers, and would turn the bit itself
//   for each byte;
// - the library asks in one loop, by masks that the compiler does not know there.
ghost use Rattle.std.specs.Prelude.{◌≡◌, ◌≤◌, length};
ghost use Rattle.text.specs.ByteTable.{entry_of, chosen};
ghost use Rattle.text.specs.Scans.{Stop};

use crate::scan;

pub const LETTER: u8 = 1;

pub const DIGIT: u8 = 2;

pub const HEX_DIGIT: u8 = 4;

pub const BLANK: u8 = 8;

pub const UNDERSCORE: u8 = 16;

pub const MINUS: u8 = 32;

pub const DOT: u8 = 64;

pub const SPACE: u8 = 128;

// What the byte x is.
fn entry(x: u8) -> u8
    ensures { result ≡ entry_of x }
{
    match x ^ 128 {
        // tab, space, underscore, minus, dot
        137 => BLANK,
        160 => BLANK | SPACE,
        223 => UNDERSCORE,
        173 => MINUS,
        174 => DOT,
        // the digits
        176 | 178 | 180 | 182 | 184 => DIGIT | HEX_DIGIT,
        177 | 179 | 181 | 183 | 185 => DIGIT | HEX_DIGIT,
        // the letters
        194 | 196 | 198 | 226 | 228 | 230 => LETTER | HEX_DIGIT,
        193 | 195 | 197 | 225 | 227 | 229 => LETTER | HEX_DIGIT,
        200 | 202 | 204 | 206 | 208 | 210 | 212 | 214 | 216 | 218 => LETTER,
        199 | 201 | 203 | 205 | 207 | 209 | 211 | 213 | 215 | 217 => LETTER,
        232 | 234 | 236 | 238 | 240 | 242 | 244 | 246 | 248 | 250 => LETTER,
        231 | 233 | 235 | 237 | 239 | 241 | 243 | 245 | 247 | 249 => LETTER,
        // the other bytes below 128
        128 | 130 | 132 | 134 | 136 | 162 | 164 | 166 | 168 | 170 | 172 => 0,
        129 | 131 | 133 | 135 | 161 | 163 | 165 | 167 | 169 | 171 => 0,
        138 | 140 | 142 | 144 | 146 | 148 | 150 | 152 | 154 | 156 | 158 => 0,
        139 | 141 | 143 | 145 | 147 | 149 | 151 | 153 | 155 | 157 | 159 => 0,
        186 | 188 | 190 | 192 | 220 | 222 | 224 | 252 | 254 => 0,
        175 | 187 | 189 | 191 | 219 | 221 | 251 | 253 | 255 => 0,
        // the bytes from 128 on, the last of which is left
        0 | 2 | 4 | 6 | 8 | 10 | 12 | 14 | 16 | 18 | 20 | 22 | 24 | 26 | 28 | 30 | 32 => 0,
        1 | 3 | 5 | 7 | 9 | 11 | 13 | 15 | 17 | 19 | 21 | 23 | 25 | 27 | 29 | 31 | 33 => 0,
        34 | 36 | 38 | 40 | 42 | 44 | 46 | 48 | 50 | 52 | 54 | 56 | 58 | 60 | 62 | 64 | 66 => 0,
        35 | 37 | 39 | 41 | 43 | 45 | 47 | 49 | 51 | 53 | 55 | 57 | 59 | 61 | 63 | 65 | 67 => 0,
        68 | 70 | 72 | 74 | 76 | 78 | 80 | 82 | 84 | 86 | 88 | 90 | 92 | 94 | 96 | 98 | 100 => 0,
        69 | 71 | 73 | 75 | 77 | 79 | 81 | 83 | 85 | 87 | 89 | 91 | 93 | 95 | 97 | 99 | 101 => 0,
        102 | 104 | 106 | 108 | 110 | 112 | 114 | 116 | 118 | 120 | 122 | 124 | 126 => 0,
        103 | 105 | 107 | 109 | 111 | 113 | 115 | 117 | 119 | 121 | 123 | 125 => 0,
        _ => 0,
    }
}

// Whether x is something of the mask.
pub fn is_in(x: u8, mask: u8) -> bool
    ensures { result ≡ chosen mask x }
{
    entry(x) & mask != 0
}

// The end of the run of bytes of the mask that starts at from.
pub fn masked_end(s: &[u8], from: usize, mask: u8) -> usize
    requires { from ≤ length s.now }
    ensures { Stop (chosen mask) s.now from result }
{
    scan::end_of(s, from, |x| is_in(x, mask))
}

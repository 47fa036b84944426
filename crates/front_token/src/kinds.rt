// The kinds of bytes as a table: what every reader of a text asks.
ghost use Rattle.front_token.specs.Kinds.{Kinds};

// The kind of a byte. One of the last kind stands only in a comment.
#[derive(Clone, Copy, PartialEq, Eq)]
pub enum ByteKind {
    Letter,
    Digit,
    Underscore,
    Blank,
    Quote,
    Mark,
    Other,
}

use ByteKind::{Blank, Digit, Letter, Mark, Other, Quote, Underscore};

// How many bytes there are.
pub const BYTES: usize = 256;

// The kind of each byte; behind it the byte, and what it is.
const KINDS: [ByteKind; BYTES] = [
    Other, // 0x00 NUL
    Other, // 0x01
    Other, // 0x02
    Other, // 0x03
    Other, // 0x04
    Other, // 0x05
    Other, // 0x06
    Other, // 0x07
    Other, // 0x08
    Blank, // 0x09 tab
    Blank, // 0x0a LF
    Other, // 0x0b VT
    Other, // 0x0c FF
    Blank, // 0x0d CR
    Other, // 0x0e
    Other, // 0x0f
    Other, // 0x10
    Other, // 0x11
    Other, // 0x12
    Other, // 0x13
    Other, // 0x14
    Other, // 0x15
    Other, // 0x16
    Other, // 0x17
    Other, // 0x18
    Other, // 0x19
    Other, // 0x1a
    Other, // 0x1b
    Other, // 0x1c
    Other, // 0x1d
    Other, // 0x1e
    Other, // 0x1f
    Blank, // 0x20 space
    Other, // 0x21 !
    Other, // 0x22 "
    Other, // 0x23 #
    Other, // 0x24 $
    Other, // 0x25 %
    Other, // 0x26 &
    Quote, // 0x27 '
    Mark, // 0x28 (
    Mark, // 0x29 )
    Mark, // 0x2a *
    Mark, // 0x2b +
    Mark, // 0x2c ,
    Mark, // 0x2d -
    Other, // 0x2e .
    Mark, // 0x2f /
    Digit, // 0x30 0
    Digit, // 0x31 1
    Digit, // 0x32 2
    Digit, // 0x33 3
    Digit, // 0x34 4
    Digit, // 0x35 5
    Digit, // 0x36 6
    Digit, // 0x37 7
    Digit, // 0x38 8
    Digit, // 0x39 9
    Mark, // 0x3a :
    Mark, // 0x3b ;
    Mark, // 0x3c <
    Mark, // 0x3d =
    Mark, // 0x3e >
    Other, // 0x3f ?
    Other, // 0x40 @
    Letter, // 0x41 A
    Letter, // 0x42 B
    Letter, // 0x43 C
    Letter, // 0x44 D
    Letter, // 0x45 E
    Letter, // 0x46 F
    Letter, // 0x47 G
    Letter, // 0x48 H
    Letter, // 0x49 I
    Letter, // 0x4a J
    Letter, // 0x4b K
    Letter, // 0x4c L
    Letter, // 0x4d M
    Letter, // 0x4e N
    Letter, // 0x4f O
    Letter, // 0x50 P
    Letter, // 0x51 Q
    Letter, // 0x52 R
    Letter, // 0x53 S
    Letter, // 0x54 T
    Letter, // 0x55 U
    Letter, // 0x56 V
    Letter, // 0x57 W
    Letter, // 0x58 X
    Letter, // 0x59 Y
    Letter, // 0x5a Z
    Other, // 0x5b [
    Other, // 0x5c \
    Other, // 0x5d ]
    Other, // 0x5e ^
    Underscore, // 0x5f _
    Other, // 0x60 `
    Letter, // 0x61 a
    Letter, // 0x62 b
    Letter, // 0x63 c
    Letter, // 0x64 d
    Letter, // 0x65 e
    Letter, // 0x66 f
    Letter, // 0x67 g
    Letter, // 0x68 h
    Letter, // 0x69 i
    Letter, // 0x6a j
    Letter, // 0x6b k
    Letter, // 0x6c l
    Letter, // 0x6d m
    Letter, // 0x6e n
    Letter, // 0x6f o
    Letter, // 0x70 p
    Letter, // 0x71 q
    Letter, // 0x72 r
    Letter, // 0x73 s
    Letter, // 0x74 t
    Letter, // 0x75 u
    Letter, // 0x76 v
    Letter, // 0x77 w
    Letter, // 0x78 x
    Letter, // 0x79 y
    Letter, // 0x7a z
    Other, // 0x7b {
    Other, // 0x7c |
    Other, // 0x7d }
    Other, // 0x7e ~
    Other, // 0x7f
    Other, // 0x80
    Other, // 0x81
    Other, // 0x82
    Other, // 0x83
    Other, // 0x84
    Other, // 0x85
    Other, // 0x86
    Other, // 0x87
    Other, // 0x88
    Other, // 0x89
    Other, // 0x8a
    Other, // 0x8b
    Other, // 0x8c
    Other, // 0x8d
    Other, // 0x8e
    Other, // 0x8f
    Other, // 0x90
    Other, // 0x91
    Other, // 0x92
    Other, // 0x93
    Other, // 0x94
    Other, // 0x95
    Other, // 0x96
    Other, // 0x97
    Other, // 0x98
    Other, // 0x99
    Other, // 0x9a
    Other, // 0x9b
    Other, // 0x9c
    Other, // 0x9d
    Other, // 0x9e
    Other, // 0x9f
    Other, // 0xa0
    Other, // 0xa1
    Other, // 0xa2
    Other, // 0xa3
    Other, // 0xa4
    Other, // 0xa5
    Other, // 0xa6
    Other, // 0xa7
    Other, // 0xa8
    Other, // 0xa9
    Other, // 0xaa
    Other, // 0xab
    Other, // 0xac
    Other, // 0xad
    Other, // 0xae
    Other, // 0xaf
    Other, // 0xb0
    Other, // 0xb1
    Other, // 0xb2
    Other, // 0xb3
    Other, // 0xb4
    Other, // 0xb5
    Other, // 0xb6
    Other, // 0xb7
    Other, // 0xb8
    Other, // 0xb9
    Other, // 0xba
    Other, // 0xbb
    Other, // 0xbc
    Other, // 0xbd
    Other, // 0xbe
    Other, // 0xbf
    Other, // 0xc0
    Other, // 0xc1
    Other, // 0xc2
    Other, // 0xc3
    Other, // 0xc4
    Other, // 0xc5
    Other, // 0xc6
    Other, // 0xc7
    Other, // 0xc8
    Other, // 0xc9
    Other, // 0xca
    Other, // 0xcb
    Other, // 0xcc
    Other, // 0xcd
    Other, // 0xce
    Other, // 0xcf
    Other, // 0xd0
    Other, // 0xd1
    Other, // 0xd2
    Other, // 0xd3
    Other, // 0xd4
    Other, // 0xd5
    Other, // 0xd6
    Other, // 0xd7
    Other, // 0xd8
    Other, // 0xd9
    Other, // 0xda
    Other, // 0xdb
    Other, // 0xdc
    Other, // 0xdd
    Other, // 0xde
    Other, // 0xdf
    Other, // 0xe0
    Other, // 0xe1
    Other, // 0xe2
    Other, // 0xe3
    Other, // 0xe4
    Other, // 0xe5
    Other, // 0xe6
    Other, // 0xe7
    Other, // 0xe8
    Other, // 0xe9
    Other, // 0xea
    Other, // 0xeb
    Other, // 0xec
    Other, // 0xed
    Other, // 0xee
    Other, // 0xef
    Other, // 0xf0
    Other, // 0xf1
    Other, // 0xf2
    Other, // 0xf3
    Other, // 0xf4
    Other, // 0xf5
    Other, // 0xf6
    Other, // 0xf7
    Other, // 0xf8
    Other, // 0xf9
    Other, // 0xfa
    Other, // 0xfb
    Other, // 0xfc
    Other, // 0xfd
    Other, // 0xfe
    Other, // 0xff
];

// The table. A reader takes it once and lends it on: a constant that is indexed in a loop is made anew at every turn.
pub fn table() -> [ByteKind; BYTES]
    ensures { Kinds result }
{
    KINDS
}

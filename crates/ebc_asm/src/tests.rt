use crate::{AsmFault, AsmKind, assemble, disassemble};
use fw_types::OutOfMemory;
use std::alloc::Global;
use std::process::Abort;

/// BREAK, jumps, calls and RET: texts and their bytes.
static JUMPS: [(&str, &[u8]); 40] = [
    ("BREAK 0", &[0x00, 0x00]),
    ("BREAK 255", &[0x00, 0xFF]),
    ("RET", &[0x04, 0x00]),
    ("JMP32 R0", &[0x01, 0x10]),
    ("JMP32 R3{-5}", &[0x81, 0x13, 0xFB, 0xFF, 0xFF, 0xFF]),
    ("JMP32 @R4", &[0x01, 0x1C]),
    (
        "JMP32 @R7[0x800000F8]",
        &[0x81, 0x1F, 0xF8, 0x00, 0x00, 0x80],
    ),
    (
        "JMP64 -1",
        &[0xC1, 0x10, 0xFF, 0xFF, 0xFF, 0xFF, 0xFF, 0xFF, 0xFF, 0xFF],
    ),
    ("JMP32a R0", &[0x01, 0x00]),
    ("JMP32a R3{-5}", &[0x81, 0x03, 0xFB, 0xFF, 0xFF, 0xFF]),
    ("JMP32a @R4", &[0x01, 0x0C]),
    (
        "JMP32a @R7[0x800000F8]",
        &[0x81, 0x0F, 0xF8, 0x00, 0x00, 0x80],
    ),
    (
        "JMP64a -9223372036854775808",
        &[0xC1, 0x00, 0x00, 0x00, 0x00, 0x00, 0x00, 0x00, 0x00, 0x80],
    ),
    ("JMP32cs @R4", &[0x01, 0xDC]),
    (
        "JMP32cs @R7[0x800000F8]",
        &[0x81, 0xDF, 0xF8, 0x00, 0x00, 0x80],
    ),
    (
        "JMP64cs 9223372036854775807",
        &[0xC1, 0xD0, 0xFF, 0xFF, 0xFF, 0xFF, 0xFF, 0xFF, 0xFF, 0x7F],
    ),
    (
        "JMP32csa @R7[0x800000F8]",
        &[0x81, 0xCF, 0xF8, 0x00, 0x00, 0x80],
    ),
    ("JMP32csa R0", &[0x01, 0xC0]),
    (
        "JMP64csa 0",
        &[0xC1, 0xC0, 0x00, 0x00, 0x00, 0x00, 0x00, 0x00, 0x00, 0x00],
    ),
    ("JMP32cc R0", &[0x01, 0x90]),
    ("JMP32cc R3{-5}", &[0x81, 0x93, 0xFB, 0xFF, 0xFF, 0xFF]),
    (
        "JMP64cc -2",
        &[0xC1, 0x90, 0xFE, 0xFF, 0xFF, 0xFF, 0xFF, 0xFF, 0xFF, 0xFF],
    ),
    ("JMP32cca R3{-5}", &[0x81, 0x83, 0xFB, 0xFF, 0xFF, 0xFF]),
    ("JMP32cca @R4", &[0x01, 0x8C]),
    (
        "JMP64cca 72623859790382856",
        &[0xC1, 0x80, 0x08, 0x07, 0x06, 0x05, 0x04, 0x03, 0x02, 0x01],
    ),
    ("JMP8 -128", &[0x02, 0x80]),
    ("JMP8cs 127", &[0xC2, 0x7F]),
    ("JMP8cc 0", &[0x82, 0x00]),
    ("CALL32 R0", &[0x03, 0x10]),
    ("CALL32 R3{-5}", &[0x83, 0x13, 0xFB, 0xFF, 0xFF, 0xFF]),
    (
        "CALL64 4",
        &[0xC3, 0x10, 0x04, 0x00, 0x00, 0x00, 0x00, 0x00, 0x00, 0x00],
    ),
    ("CALL32a R3{-5}", &[0x83, 0x03, 0xFB, 0xFF, 0xFF, 0xFF]),
    ("CALL32a @R4", &[0x03, 0x0C]),
    (
        "CALL64a 4096",
        &[0xC3, 0x00, 0x00, 0x10, 0x00, 0x00, 0x00, 0x00, 0x00, 0x00],
    ),
    ("CALL32EX @R4", &[0x03, 0x3C]),
    (
        "CALL32EX @R7[0x800000F8]",
        &[0x83, 0x3F, 0xF8, 0x00, 0x00, 0x80],
    ),
    (
        "CALL64EX -78187493530",
        &[0xC3, 0x30, 0x66, 0x87, 0xA9, 0xCB, 0xED, 0xFF, 0xFF, 0xFF],
    ),
    (
        "CALL32EXa @R7[0x800000F8]",
        &[0x83, 0x2F, 0xF8, 0x00, 0x00, 0x80],
    ),
    ("CALL32EXa R0", &[0x03, 0x20]),
    (
        "CALL64EXa -3",
        &[0xC3, 0x20, 0xFD, 0xFF, 0xFF, 0xFF, 0xFF, 0xFF, 0xFF, 0xFF],
    ),
];

/// Comparisons and arithmetic: texts and their bytes.
static ARITHMETIC: [(&str, &[u8]); 48] = [
    ("CMP32eq R0, R6", &[0x05, 0x60]),
    ("CMP64eq R1, R2{-32768}", &[0xC5, 0x21, 0x00, 0x80]),
    ("CMP32lte R2, @R5", &[0x06, 0xD2]),
    ("CMP64lte R3, @R0[0xA048]", &[0xC6, 0x83, 0x48, 0xA0]),
    ("CMP32gte R4, R7{32767}", &[0x87, 0x74, 0xFF, 0x7F]),
    ("CMP64gte R5, R1{0}", &[0xC7, 0x15, 0x00, 0x00]),
    ("CMP32ulte R6, R6", &[0x08, 0x66]),
    ("CMP64ulte R7, R2{-32768}", &[0xC8, 0x27, 0x00, 0x80]),
    ("CMP32ugte R0, @R5", &[0x09, 0xD0]),
    ("CMP64ugte R1, @R0[0xA048]", &[0xC9, 0x81, 0x48, 0xA0]),
    ("NOT32 @R6, R7{32767}", &[0x8A, 0x7E, 0xFF, 0x7F]),
    ("NOT64 @R1, R1{0}", &[0xCA, 0x19, 0x00, 0x00]),
    ("NEG32 R4, R6", &[0x0B, 0x64]),
    ("NEG64 R7, R2{-32768}", &[0xCB, 0x27, 0x00, 0x80]),
    ("ADD32 @R2, @R5", &[0x0C, 0xDA]),
    ("ADD64 @R5, @R0[0xA048]", &[0xCC, 0x8D, 0x48, 0xA0]),
    ("SUB32 R0, R7{32767}", &[0x8D, 0x70, 0xFF, 0x7F]),
    ("SUB64 R3, R1{0}", &[0xCD, 0x13, 0x00, 0x00]),
    ("MUL32 @R6, R6", &[0x0E, 0x6E]),
    ("MUL64 @R1, R2{-32768}", &[0xCE, 0x29, 0x00, 0x80]),
    ("MULU32 R4, @R5", &[0x0F, 0xD4]),
    ("MULU64 R7, @R0[0xA048]", &[0xCF, 0x87, 0x48, 0xA0]),
    ("DIV32 @R2, R7{32767}", &[0x90, 0x7A, 0xFF, 0x7F]),
    ("DIV64 @R5, R1{0}", &[0xD0, 0x1D, 0x00, 0x00]),
    ("DIVU32 R0, R6", &[0x11, 0x60]),
    ("DIVU64 R3, R2{-32768}", &[0xD1, 0x23, 0x00, 0x80]),
    ("MOD32 @R6, @R5", &[0x12, 0xDE]),
    ("MOD64 @R1, @R0[0xA048]", &[0xD2, 0x89, 0x48, 0xA0]),
    ("MODU32 R4, R7{32767}", &[0x93, 0x74, 0xFF, 0x7F]),
    ("MODU64 R7, R1{0}", &[0xD3, 0x17, 0x00, 0x00]),
    ("AND32 @R2, R6", &[0x14, 0x6A]),
    ("AND64 @R5, R2{-32768}", &[0xD4, 0x2D, 0x00, 0x80]),
    ("OR32 R0, @R5", &[0x15, 0xD0]),
    ("OR64 R3, @R0[0xA048]", &[0xD5, 0x83, 0x48, 0xA0]),
    ("XOR32 @R6, R7{32767}", &[0x96, 0x7E, 0xFF, 0x7F]),
    ("XOR64 @R1, R1{0}", &[0xD6, 0x19, 0x00, 0x00]),
    ("SHL32 R4, R6", &[0x17, 0x64]),
    ("SHL64 R7, R2{-32768}", &[0xD7, 0x27, 0x00, 0x80]),
    ("SHR32 @R2, @R5", &[0x18, 0xDA]),
    ("SHR64 @R5, @R0[0xA048]", &[0xD8, 0x8D, 0x48, 0xA0]),
    ("ASHR32 R0, R7{32767}", &[0x99, 0x70, 0xFF, 0x7F]),
    ("ASHR64 R3, R1{0}", &[0xD9, 0x13, 0x00, 0x00]),
    ("EXTNDB32 @R6, R6", &[0x1A, 0x6E]),
    ("EXTNDB64 @R1, R2{-32768}", &[0xDA, 0x29, 0x00, 0x80]),
    ("EXTNDW32 R4, @R5", &[0x1B, 0xD4]),
    ("EXTNDW64 R7, @R0[0xA048]", &[0xDB, 0x87, 0x48, 0xA0]),
    ("EXTNDD32 @R2, R7{32767}", &[0x9C, 0x7A, 0xFF, 0x7F]),
    ("EXTNDD64 @R5, R1{0}", &[0xDC, 0x1D, 0x00, 0x00]),
];

/// Moves, flags and the stack: texts and their bytes.
static MOVES: [(&str, &[u8]); 53] = [
    ("MOVbw R5, R2", &[0x1D, 0x25]),
    ("MOVbw @R1[0x0018], @R3", &[0x9D, 0xB9, 0x18, 0x00]),
    ("MOVww @R6, @R3", &[0x1E, 0xBE]),
    (
        "MOVww @R1[0x0018], @R4[0xFFFF]",
        &[0xDE, 0xC9, 0x18, 0x00, 0xFF, 0xFF],
    ),
    (
        "MOVdw @R1[0x0018], @R4[0xFFFF]",
        &[0xDF, 0xC9, 0x18, 0x00, 0xFF, 0xFF],
    ),
    (
        "MOVdw @R1[0x0018], R7[0x0018]",
        &[0xDF, 0x79, 0x18, 0x00, 0x18, 0x00],
    ),
    ("MOVqw R5, R2", &[0x20, 0x25]),
    ("MOVqw @R6, @R3", &[0x20, 0xBE]),
    (
        "MOVqw @R1[0x0018], @R4[0xFFFF]",
        &[0xE0, 0xC9, 0x18, 0x00, 0xFF, 0xFF],
    ),
    (
        "MOVqw @R1[0x0018], R7[0x0018]",
        &[0xE0, 0x79, 0x18, 0x00, 0x18, 0x00],
    ),
    ("MOVbd @R6, R2", &[0x21, 0x2E]),
    (
        "MOVbd @R1[0x10000025], @R3",
        &[0xA1, 0xB9, 0x25, 0x00, 0x00, 0x10],
    ),
    (
        "MOVwd @R1[0x10000025], @R3",
        &[0xA2, 0xB9, 0x25, 0x00, 0x00, 0x10],
    ),
    (
        "MOVwd @R1[0x10000025], @R4[0xFFFFFFF0]",
        &[0xE2, 0xC9, 0x25, 0x00, 0x00, 0x10, 0xF0, 0xFF, 0xFF, 0xFF],
    ),
    (
        "MOVdd R5, @R4[0xFFFFFFF0]",
        &[0x63, 0xC5, 0xF0, 0xFF, 0xFF, 0xFF],
    ),
    (
        "MOVdd @R1[0x10000025], R7[0x10000025]",
        &[0xE3, 0x79, 0x25, 0x00, 0x00, 0x10, 0x25, 0x00, 0x00, 0x10],
    ),
    (
        "MOVqd @R6, R7[0x10000025]",
        &[0x64, 0x7E, 0x25, 0x00, 0x00, 0x10],
    ),
    (
        "MOVqd @R1[0x10000025], R2",
        &[0xA4, 0x29, 0x25, 0x00, 0x00, 0x10],
    ),
    ("MOVsnw R5, R2", &[0x25, 0x25]),
    ("MOVsnw @R6, @R3", &[0x25, 0xBE]),
    (
        "MOVsnw @R1[0x0018], @R4[0xFFFF]",
        &[0xE5, 0xC9, 0x18, 0x00, 0xFF, 0xFF],
    ),
    (
        "MOVsnw @R1[0x0018], R7{-2}",
        &[0xE5, 0x79, 0x18, 0x00, 0xFE, 0xFF],
    ),
    ("MOVsnd R5, R2", &[0x26, 0x25]),
    ("MOVsnd @R6, @R3", &[0x26, 0xBE]),
    (
        "MOVsnd @R1[0x10000025], @R4[0xFFFFFFF0]",
        &[0xE6, 0xC9, 0x25, 0x00, 0x00, 0x10, 0xF0, 0xFF, 0xFF, 0xFF],
    ),
    (
        "MOVsnd @R1[0x10000025], R7{-2}",
        &[0xE6, 0x79, 0x25, 0x00, 0x00, 0x10, 0xFE, 0xFF, 0xFF, 0xFF],
    ),
    ("MOVqq R5, R2", &[0x28, 0x25]),
    ("MOVqq @R6, @R3", &[0x28, 0xBE]),
    (
        "MOVqq @R1[0x1000000000000105], @R4[0xFEDCBA9876543210]",
        &[
            0xE8, 0xC9, 0x05, 0x01, 0x00, 0x00, 0x00, 0x00, 0x00, 0x10, 0x10, 0x32, 0x54, 0x76,
            0x98, 0xBA, 0xDC, 0xFE,
        ],
    ),
    (
        "MOVqq @R1[0x1000000000000105], R7[0x1000000000000105]",
        &[
            0xE8, 0x79, 0x05, 0x01, 0x00, 0x00, 0x00, 0x00, 0x00, 0x10, 0x05, 0x01, 0x00, 0x00,
            0x00, 0x00, 0x00, 0x10,
        ],
    ),
    (
        "MOVnw @R1[0x0018], R7[0x0018]",
        &[0xF2, 0x79, 0x18, 0x00, 0x18, 0x00],
    ),
    ("MOVnw @R1[0x0018], R2", &[0xB2, 0x29, 0x18, 0x00]),
    ("MOVnd R5, R2", &[0x33, 0x25]),
    (
        "MOVnd @R1[0x10000025], @R3",
        &[0xB3, 0xB9, 0x25, 0x00, 0x00, 0x10],
    ),
    ("LOADSP FLAGS, R5", &[0x29, 0x50]),
    ("STORESP R6, FLAGS", &[0x2A, 0x06]),
    ("STORESP R1, IP", &[0x2A, 0x11]),
    ("PUSH32 R5", &[0x2B, 0x05]),
    ("PUSH32 R0{-1}", &[0xAB, 0x00, 0xFF, 0xFF]),
    ("PUSH64 @R2", &[0x6B, 0x0A]),
    ("PUSH64 @R7[0x0060]", &[0xEB, 0x0F, 0x60, 0x00]),
    ("POP32 R5", &[0x2C, 0x05]),
    ("POP32 R0{-1}", &[0xAC, 0x00, 0xFF, 0xFF]),
    ("POP64 @R2", &[0x6C, 0x0A]),
    ("POP64 @R7[0x0060]", &[0xEC, 0x0F, 0x60, 0x00]),
    ("PUSHn R5", &[0x35, 0x05]),
    ("PUSHn R0{-1}", &[0xB5, 0x00, 0xFF, 0xFF]),
    ("PUSHn @R2", &[0x35, 0x0A]),
    ("PUSHn @R7[0x0060]", &[0xB5, 0x0F, 0x60, 0x00]),
    ("POPn R5", &[0x36, 0x05]),
    ("POPn R0{-1}", &[0xB6, 0x00, 0xFF, 0xFF]),
    ("POPn @R2", &[0x36, 0x0A]),
    ("POPn @R7[0x0060]", &[0xB6, 0x0F, 0x60, 0x00]),
];

/// Comparisons and moves with an immediate: texts and their bytes.
static IMMEDIATES: [(&str, &[u8]); 41] = [
    ("CMPI32weq R4, -32768", &[0x2D, 0x04, 0x00, 0x80]),
    (
        "CMPI32deq @R2, -2147483648",
        &[0xAD, 0x0A, 0x00, 0x00, 0x00, 0x80],
    ),
    (
        "CMPI64weq @R3[0x8001], 32767",
        &[0x6D, 0x1B, 0x01, 0x80, 0xFF, 0x7F],
    ),
    (
        "CMPI64deq R4, 2147483647",
        &[0xED, 0x04, 0xFF, 0xFF, 0xFF, 0x7F],
    ),
    ("CMPI32wlte @R2, 0", &[0x2E, 0x0A, 0x00, 0x00]),
    (
        "CMPI32dlte @R3[0x8001], 1",
        &[0xAE, 0x1B, 0x01, 0x80, 0x01, 0x00, 0x00, 0x00],
    ),
    ("CMPI64wlte R4, -32768", &[0x6E, 0x04, 0x00, 0x80]),
    (
        "CMPI64dlte @R2, -2147483648",
        &[0xEE, 0x0A, 0x00, 0x00, 0x00, 0x80],
    ),
    (
        "CMPI32wgte @R3[0x8001], 32767",
        &[0x2F, 0x1B, 0x01, 0x80, 0xFF, 0x7F],
    ),
    (
        "CMPI32dgte R4, 2147483647",
        &[0xAF, 0x04, 0xFF, 0xFF, 0xFF, 0x7F],
    ),
    ("CMPI64wgte @R2, 0", &[0x6F, 0x0A, 0x00, 0x00]),
    (
        "CMPI64dgte @R3[0x8001], 1",
        &[0xEF, 0x1B, 0x01, 0x80, 0x01, 0x00, 0x00, 0x00],
    ),
    ("CMPI32wulte R4, -32768", &[0x30, 0x04, 0x00, 0x80]),
    (
        "CMPI32dulte @R2, -2147483648",
        &[0xB0, 0x0A, 0x00, 0x00, 0x00, 0x80],
    ),
    (
        "CMPI64wulte @R3[0x8001], 32767",
        &[0x70, 0x1B, 0x01, 0x80, 0xFF, 0x7F],
    ),
    (
        "CMPI64dulte R4, 2147483647",
        &[0xF0, 0x04, 0xFF, 0xFF, 0xFF, 0x7F],
    ),
    ("CMPI32wugte @R2, 0", &[0x31, 0x0A, 0x00, 0x00]),
    (
        "CMPI32dugte @R3[0x8001], 1",
        &[0xB1, 0x1B, 0x01, 0x80, 0x01, 0x00, 0x00, 0x00],
    ),
    ("CMPI64wugte R4, -32768", &[0x71, 0x04, 0x00, 0x80]),
    (
        "CMPI64dugte @R2, -2147483648",
        &[0xF1, 0x0A, 0x00, 0x00, 0x00, 0x80],
    ),
    (
        "MOVIbw @R3[0x8001], 0",
        &[0x77, 0x4B, 0x01, 0x80, 0x00, 0x00],
    ),
    (
        "MOVIbd R4, -2147483648",
        &[0xB7, 0x04, 0x00, 0x00, 0x00, 0x80],
    ),
    (
        "MOVIbq @R2, 9223372036854775807",
        &[0xF7, 0x0A, 0xFF, 0xFF, 0xFF, 0xFF, 0xFF, 0xFF, 0xFF, 0x7F],
    ),
    (
        "MOVIww @R3[0x8001], -32768",
        &[0x77, 0x5B, 0x01, 0x80, 0x00, 0x80],
    ),
    (
        "MOVIwd R4, 2147483647",
        &[0xB7, 0x14, 0xFF, 0xFF, 0xFF, 0x7F],
    ),
    (
        "MOVIwq @R2, -1",
        &[0xF7, 0x1A, 0xFF, 0xFF, 0xFF, 0xFF, 0xFF, 0xFF, 0xFF, 0xFF],
    ),
    (
        "MOVIdw @R3[0x8001], 32767",
        &[0x77, 0x6B, 0x01, 0x80, 0xFF, 0x7F],
    ),
    ("MOVIdd R4, 1", &[0xB7, 0x24, 0x01, 0x00, 0x00, 0x00]),
    (
        "MOVIdq @R2, -9223372036854775808",
        &[0xF7, 0x2A, 0x00, 0x00, 0x00, 0x00, 0x00, 0x00, 0x00, 0x80],
    ),
    (
        "MOVIqw @R3[0x8001], 0",
        &[0x77, 0x7B, 0x01, 0x80, 0x00, 0x00],
    ),
    (
        "MOVIqd R4, -2147483648",
        &[0xB7, 0x34, 0x00, 0x00, 0x00, 0x80],
    ),
    (
        "MOVIqq @R2, 9223372036854775807",
        &[0xF7, 0x3A, 0xFF, 0xFF, 0xFF, 0xFF, 0xFF, 0xFF, 0xFF, 0x7F],
    ),
    ("MOVInw R4, [0x0000]", &[0x78, 0x04, 0x00, 0x00]),
    ("MOVInw @R2, [0x0018]", &[0x78, 0x0A, 0x18, 0x00]),
    (
        "MOVInd @R2, [0x00000000]",
        &[0xB8, 0x0A, 0x00, 0x00, 0x00, 0x00],
    ),
    (
        "MOVInd @R3[0x8001], [0xA0480000]",
        &[0xB8, 0x4B, 0x01, 0x80, 0x00, 0x00, 0x48, 0xA0],
    ),
    (
        "MOVInq @R3[0x8001], [0x0000000000000000]",
        &[
            0xF8, 0x4B, 0x01, 0x80, 0x00, 0x00, 0x00, 0x00, 0x00, 0x00, 0x00, 0x00,
        ],
    ),
    (
        "MOVInq R4, [0xFFFFFFFFFFFFFFFF]",
        &[0xF8, 0x04, 0xFF, 0xFF, 0xFF, 0xFF, 0xFF, 0xFF, 0xFF, 0xFF],
    ),
    ("MOVRELw R4, -32768", &[0x79, 0x04, 0x00, 0x80]),
    (
        "MOVRELd @R2, 2147483647",
        &[0xB9, 0x0A, 0xFF, 0xFF, 0xFF, 0x7F],
    ),
    (
        "MOVRELq @R3[0x8001], -4",
        &[
            0xF9, 0x4B, 0x01, 0x80, 0xFC, 0xFF, 0xFF, 0xFF, 0xFF, 0xFF, 0xFF, 0xFF,
        ],
    ),
];

/// The text has these bytes, and their listing is the text.
fn check_both_ways(rt: &impl Abort, alloc: Global, text: &str, bytes: &[u8]) {
    assert!(rt; text.len() < 100 && bytes.len() < 100);
    let made = assemble(alloc, text).expect(rt, "a text");
    assert_eq!(rt; made.as_slice(), bytes, "{text}");
    let listing = disassemble(alloc, bytes, 0).expect(rt, "memory");
    let wanted = format!(in alloc; "00000000 {text}\n").expect(rt, "memory");
    assert_eq!(rt; listing.as_str(), wanted.as_str());
}

#[test]
fn jumps_both_ways(rt: HostRuntime) {
    for (text, bytes) in &JUMPS {
        check_both_ways(&rt, rt.alloc(), text, bytes);
    }
}

#[test]
fn arithmetic_both_ways(rt: HostRuntime) {
    for (text, bytes) in &ARITHMETIC {
        check_both_ways(&rt, rt.alloc(), text, bytes);
    }
}

#[test]
fn moves_both_ways(rt: HostRuntime) {
    for (text, bytes) in &MOVES {
        check_both_ways(&rt, rt.alloc(), text, bytes);
    }
}

#[test]
fn immediates_both_ways(rt: HostRuntime) {
    for (text, bytes) in &IMMEDIATES {
        check_both_ways(&rt, rt.alloc(), text, bytes);
    }
}

/// A driver's entry that calls a boot service, laid at 0x200.
#[test]
fn driver_entry_is_listed(rt: HostRuntime) {
    let bytes = [
        0x60, 0x84, 0x18, 0x00, 0x60, 0xC4, 0x60, 0x00, 0x35, 0x05, 0x83, 0x2C, 0xF8, 0x00, 0x00,
        0x00, 0x36, 0x05, 0x04, 0x00,
    ];
    let listing = disassemble(rt.alloc(), &bytes, 0x200).expect(&rt, "memory");
    assert_eq!(rt;
        listing.as_str(),
        "00000200 MOVqw R4, @R0[0x0018]\n00000204 MOVqw R4, @R4[0x0060]\n00000208 PUSHn R5\n0000020A CALL32EXa @R4[0x000000F8]\n00000210 POPn R5\n00000212 RET\n"
    );
}

/// Bytes, their address, and their listing.
#[test]
fn listings(rt: HostRuntime) {
    let vectors: [(&[u8], u64, &str); 8] = [
        (&[], 0, ""),
        (&[0x27, 0x00], 0, "00000000 .illegal\n"),
        (&[0x04], 0xFFFF_FFFE, "FFFFFFFE .illegal\n"),
        // Eight digits do not hold the address.
        (
            &[0x04, 0x00, 0x77, 0x37],
            0xFFFF_FFFE,
            "FFFFFFFE RET\n100000000 .illegal\n",
        ),
        (
            &[0x04, 0x00],
            0x7FFF_FFFF_FFFF_FFFE,
            "7FFFFFFFFFFFFFFE RET\n",
        ),
        // Nothing is listed after the first place at which no instruction begins.
        (
            &[0x36, 0x05, 0x27, 0x00, 0x04, 0x00],
            0x400,
            "00000400 POPn R5\n00000402 .illegal\n",
        ),
        // Ignored bits: MOVInw with bits 5:4, RET with a second byte, an unconditional JMP8 with m6.
        (
            &[0x78, 0x37, 0x18, 0x00, 0xC4, 0xFF, 0x42, 0xFF],
            0,
            "00000000 MOVInw R7, [0x0018]\n00000004 RET\n00000006 JMP8 -1\n",
        ),
        (&[0x2A, 0x65, 0x29, 0x51], 0, "00000000 .illegal\n"),
    ];
    for (bytes, at, wanted) in vectors {
        assert!(&rt; bytes.len() < 100 && at < 1 << 62 || at + 2 <= 1 << 63 && bytes.len() == 2);
        let listing = disassemble(rt.alloc(), bytes, at).expect(&rt, "memory");
        assert_eq!(rt; listing.as_str(), wanted);
    }
}

/// Texts and their bytes.
#[test]
fn texts(rt: HostRuntime) {
    let vectors: [(&str, &[u8]); 16] = [
        ("", &[]),
        ("MOVIqw R7, 0\nRET\n", &[0x77, 0x37, 0x00, 0x00, 0x04, 0x00]),
        ("MOVIqw R7, 0\r\nRET", &[0x77, 0x37, 0x00, 0x00, 0x04, 0x00]),
        // Blanks, blank lines and comments.
        (
            "\n \t\n; RET\n\t ADD32  @R1 ,\tR2 ; more; still more\n",
            &[0x0C, 0x29],
        ),
        ("RET;", &[0x04, 0x00]),
        // Hexadecimal digits of either case, and any number of them.
        ("MOVqw R1, @R2[0x8001]", &[0x60, 0xA1, 0x01, 0x80]),
        ("MOVqw R1, @R2[0xAbcd]", &[0x60, 0xA1, 0xCD, 0xAB]),
        ("MOVqw R1, @R2[0x5]", &[0x60, 0xA1, 0x05, 0x00]),
        (
            "MOVqw R1, @R2[0x00000000000000005]",
            &[0x60, 0xA1, 0x05, 0x00],
        ),
        ("MOVIbw R1, -0", &[0x77, 0x01, 0x00, 0x00]),
        ("MOVIbw R1, 007", &[0x77, 0x01, 0x07, 0x00]),
        // Bytes in decimal and hexadecimal.
        (".byte 0, 255, 0x0, 0xfF", &[0x00, 0xFF, 0x00, 0xFF]),
        (
            ".byte 1 2,3\n.byte 0x0000000004\n",
            &[0x01, 0x02, 0x03, 0x04],
        ),
        // Only labels, and names that they may have.
        ("a:\n _b.C9: ; here\n.byte:\n", &[]),
        ("RET:\nRET\n", &[0x04, 0x00]),
        (
            "JMP8 =.x\n.byte 9\n.byte 9\n.x:\n",
            &[0x02, 0x01, 0x09, 0x09],
        ),
    ];
    for (text, bytes) in vectors {
        assert!(&rt; text.len() < 100);
        let made = assemble(rt.alloc(), text).expect(&rt, "a text");
        assert_eq!(rt; made.as_slice(), bytes, "{text}");
    }
}

/// Distances to labels, forward and back.
#[test]
fn labels(rt: HostRuntime) {
    let vectors: [(&str, &[u8]); 12] = [
        ("a:\nJMP8 =a", &[0x02, 0xFF]),
        ("JMP8cs =b\nRET\nb:", &[0xC2, 0x01, 0x04, 0x00]),
        ("a:\nRET\nJMP8cc =a\n", &[0x04, 0x00, 0x82, 0xFE]),
        ("MOVRELw R1, =a\na:", &[0x79, 0x01, 0x00, 0x00]),
        (
            "a:\nMOVRELd @R1[0x0002], =a",
            &[0xB9, 0x49, 0x02, 0x00, 0xF8, 0xFF, 0xFF, 0xFF],
        ),
        (
            "MOVRELq R1, =a\n.byte 7\na:",
            &[0xF9, 0x01, 0x01, 0, 0, 0, 0, 0, 0, 0, 0x07],
        ),
        (
            "a:\nJMP64 =a",
            &[0xC1, 0x10, 0xF6, 0xFF, 0xFF, 0xFF, 0xFF, 0xFF, 0xFF, 0xFF],
        ),
        ("CALL64EX =a\na:", &[0xC3, 0x30, 0, 0, 0, 0, 0, 0, 0, 0]),
        ("a:\nJMP32 R0{=a}", &[0x81, 0x10, 0xFA, 0xFF, 0xFF, 0xFF]),
        ("JMP32cc R0{=a}\na:", &[0x81, 0x90, 0, 0, 0, 0]),
        (
            "CALL32 R0{=a}\n.byte 1, 2\na:\nRET",
            &[0x83, 0x10, 0x02, 0, 0, 0, 0x01, 0x02, 0x04, 0x00],
        ),
        // JMP32 may have an odd distance, and labels may share a place.
        (
            "JMP32 R0{=b}\n.byte 1\na:\nb:\nJMP8 =c\nc:",
            &[0x81, 0x10, 0x01, 0, 0, 0, 0x01, 0x02, 0x00],
        ),
    ];
    for (text, bytes) in vectors {
        assert!(&rt; text.len() < 100);
        let made = assemble(rt.alloc(), text).expect(&rt, "a text");
        assert_eq!(rt; made.as_slice(), bytes, "{text}");
    }
}

/// A line before, another line so many times, and a line after.
fn around(alloc: Global, before: &str, count: u32, after: &str) -> Result<String, OutOfMemory> {
    let mut text = String::new(alloc);
    text.push_str(before)?;
    for _ in 0..count {
        text.push_str("\nRET\n")?;
    }
    text.push_str(after)?;
    Ok(text)
}

/// The greatest distances of JMP8, and the next greater ones.
#[test]
fn farthest_ways(rt: HostRuntime) -> Result<(), OutOfMemory> {
    let range = AsmFault::Refused {
        line: 1,
        kind: AsmKind::Range,
    };
    for (count, wanted) in [(127, Ok(0x7F)), (128, Err(range))] {
        let text = around(rt.alloc(), "JMP8 =a", count, "a:\n")?;
        check_byte(&rt, rt.alloc(), text.as_str(), 1, wanted);
    }
    for (count, wanted) in [
        (127, Ok(0x80)),
        (
            128,
            Err(AsmFault::Refused {
                line: 257,
                kind: AsmKind::Range,
            }),
        ),
    ] {
        let text = around(rt.alloc(), "a:", count, "JMP8 =a\n")?;
        check_byte(&rt, rt.alloc(), text.as_str(), 255, wanted);
    }
    Ok(())
}

fn check_byte(
    rt: &impl Abort,
    alloc: Global,
    text: &str,
    place: usize,
    wanted: Result<u8, AsmFault>,
) {
    assert!(rt; text.len() < 4096);
    match assemble(alloc, text) {
        Ok(bytes) => {
            assert!(rt; place < bytes.len());
            assert_eq!(rt; Ok(bytes[place]), wanted);
        }
        Err(fault) => assert_eq!(rt; Err(fault), wanted),
    }
}

/// Texts, with the line that is refused and its kind.
static REFUSED: [(&str, u32, AsmKind); 93] = [
    // Names that are not there.
    ("ADD R1, R2", 1, AsmKind::UnknownWord),
    ("add32 R1, R2", 1, AsmKind::UnknownWord),
    ("MOVIq R1, 0", 1, AsmKind::UnknownWord),
    ("RET\n\nfoo", 3, AsmKind::UnknownWord),
    ("a b:", 1, AsmKind::UnknownWord),
    ("1a:", 1, AsmKind::UnknownWord),
    ("a :", 1, AsmKind::UnknownWord),
    ("a: RET", 1, AsmKind::UnknownWord),
    (".illegal", 1, AsmKind::UnknownWord),
    (".byte, 1", 1, AsmKind::UnknownWord),
    ("JMP32EX R0", 1, AsmKind::UnknownWord),
    ("CALL64cs 0", 1, AsmKind::UnknownWord),
    ("MOVInb R1, [0x0]", 1, AsmKind::UnknownWord),
    ("RET\r", 1, AsmKind::UnknownWord),
    // Wrong operands.
    ("RET R1", 1, AsmKind::Operand),
    ("RET ,", 1, AsmKind::Operand),
    ("ADD32", 1, AsmKind::Operand),
    ("ADD32 R1", 1, AsmKind::Operand),
    ("ADD32 R1,", 1, AsmKind::Operand),
    ("ADD32 R1 R2", 1, AsmKind::Operand),
    ("ADD32 R1, R2, R3", 1, AsmKind::Operand),
    // No register has the digits 8, 12 or 9: here and below \u{32} is a 2, \u{38} an 8, \u{39} a 9.
    ("ADD32 R\u{38}, R1", 1, AsmKind::Operand),
    ("ADD32 r1, R1", 1, AsmKind::Operand),
    ("ADD32 R1\u{32}, R1", 1, AsmKind::Operand),
    ("ADD32 R1{1}, R1", 1, AsmKind::Operand),
    ("ADD32 @R1[0x1], R1", 1, AsmKind::Operand),
    ("ADD32 R1, R2[0x1]", 1, AsmKind::Operand),
    ("ADD32 R1, @R2{1}", 1, AsmKind::Operand),
    ("ADD32 R1, R2{1", 1, AsmKind::Operand),
    ("ADD32 R1, R2{1]", 1, AsmKind::Operand),
    ("ADD32 R1, R2 {1}", 1, AsmKind::Operand),
    ("CMP32eq @R1, R2", 1, AsmKind::Operand),
    ("MOVqw R1[0x1], R2", 1, AsmKind::Operand),
    ("MOVqw R1, R2{1}", 1, AsmKind::Operand),
    ("MOVsnw R1, R2[0x1]", 1, AsmKind::Operand),
    ("LOADSP R1, R2", 1, AsmKind::Operand),
    ("LOADSP FLAGS, @R2", 1, AsmKind::Operand),
    ("STORESP R1, R2", 1, AsmKind::Operand),
    ("MOVIqw R1, R2", 1, AsmKind::Operand),
    ("MOVIqw R1, =a\na:", 1, AsmKind::Operand),
    ("MOVInw R1, 5", 1, AsmKind::Operand),
    ("JMP64a =a\na:", 1, AsmKind::Operand),
    ("JMP32a R0{=a}\na:", 1, AsmKind::Operand),
    ("JMP32 R1{=a}\na:", 1, AsmKind::Operand),
    ("JMP32 @R0{=a}\na:", 1, AsmKind::Operand),
    ("JMP8 R1", 1, AsmKind::Operand),
    ("JMP8 =1", 1, AsmKind::Operand),
    ("PUSH32 R1, R2", 1, AsmKind::Operand),
    (".byte", 1, AsmKind::Operand),
    // Malformed numbers.
    ("MOVIqw R1, 0x1", 1, AsmKind::Number),
    ("MOVIqw R1, 1a", 1, AsmKind::Number),
    ("MOVIqw R1, -", 1, AsmKind::Number),
    ("MOVIqw R1, +1", 1, AsmKind::Number),
    ("ADD32 R1, R2{}", 1, AsmKind::Number),
    ("MOVqw R1, @R2[1]", 1, AsmKind::Number),
    ("MOVqw R1, @R2[0x]", 1, AsmKind::Number),
    ("MOVqw R1, @R2[0xG]", 1, AsmKind::Number),
    ("MOVqw R1, @R2[0X1]", 1, AsmKind::Number),
    ("BREAK -1", 1, AsmKind::Number),
    ("BREAK 0x1", 1, AsmKind::Number),
    (".byte 1, 0x", 1, AsmKind::Number),
    (".byte -1", 1, AsmKind::Number),
    // Labels that are missing or repeated.
    ("JMP8 =a", 1, AsmKind::Label),
    ("RET\nMOVRELw R1, =b\na:", 2, AsmKind::Label),
    ("CALL32 R0{=a}", 1, AsmKind::Label),
    ("a:\nRET\na:\n", 3, AsmKind::Label),
    ("a:\nb:\na:\nb:", 3, AsmKind::Label),
    ("JMP8 =a\na:\na:", 3, AsmKind::Label),
    // Numbers that do not fit, and an odd distance.
    ("MOVIbw R1, 32768", 1, AsmKind::Range),
    ("MOVIbw R1, -32769", 1, AsmKind::Range),
    ("MOVIqd R1, 2147483648", 1, AsmKind::Range),
    ("MOVIqd R1, -2147483649", 1, AsmKind::Range),
    ("MOVIqq R1, 9223372036854775808", 1, AsmKind::Range),
    ("MOVIqq R1, -9223372036854775809", 1, AsmKind::Range),
    ("MOVIqq R1, 99999999999999999999999", 1, AsmKind::Range),
    ("JMP8 128", 1, AsmKind::Range),
    ("JMP8 -129", 1, AsmKind::Range),
    ("MOVqw R1, @R2[0x10000]", 1, AsmKind::Range),
    ("MOVqd R1, @R2[0x100000000]", 1, AsmKind::Range),
    ("MOVqq R1, @R2[0x10000000000000000]", 1, AsmKind::Range),
    ("BREAK 256", 1, AsmKind::Range),
    (".byte 256", 1, AsmKind::Range),
    (".byte 0x100", 1, AsmKind::Range),
    ("JMP8 =a\n.byte 1\na:", 1, AsmKind::Range),
    // The first line counts, and its first fault from left to right.
    ("MOVqw R\u{39}, @R2[1]", 1, AsmKind::Operand),
    ("MOVqw @R1[1], R\u{39}", 1, AsmKind::Number),
    ("MOVqw @R1[0x10000], R9", 1, AsmKind::Range),
    ("MOVRELw @R1[0x], =a", 1, AsmKind::Number),
    ("JMP8 =a\nfoo", 1, AsmKind::Label),
    ("foo\nJMP8 =a", 1, AsmKind::UnknownWord),
    ("RET\n.byte 256\nfoo\n", 2, AsmKind::Range),
    // A refused line has no bytes.
    ("JMP8 =a\n.byte 1, 256\n.byte 1\na:", 1, AsmKind::Range),
    ("JMP8 =a\nMOVIqw R\u{39}, 1\na:\n", 2, AsmKind::Operand),
];

#[test]
fn refusals(rt: HostRuntime) {
    for (text, line, kind) in &REFUSED {
        assert!(&rt; text.len() < 100);
        match assemble(rt.alloc(), text) {
            Ok(_) => assert!(&rt; false, "{text}"),
            Err(fault) => {
                let wanted = AsmFault::Refused {
                    line: *line,
                    kind: *kind,
                };
                assert_eq!(rt; fault, wanted, "{text}");
            }
        }
    }
}

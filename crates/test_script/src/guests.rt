//! Modules to load, by the paths under which a script finds them.

/// Paths, and the bytes of the modules in hexadecimal.
pub const GUESTS: [(&str, &str); 29] = [
    // `f` gives 7.
    (
        "seven",
        "0061736d010000000105016000017f03020100070501016600000a0601040041070b",
    ),
    // `f` is a loop that goes on forever: a charge to enter it, and one for each way back.
    (
        "loop",
        "0061736d0100000001040160000003020100070501016600000a0901070003400c000b0b",
    ),
    // The least i32 by -1 and by 0: `div` and `rem` by -1, `div0` and `rem0` by 0, all signed.
    (
        "divide",
        "0061736d010000000105016000017f03050400000000071b040364697600000372656d0001046469763000020472656d3000030a31040b00418080808078417f6d0b0b00418080808078417f6f0b0b0041808080807841006d0b0b0041808080807841006f0b",
    ),
    // One page. `f` loads an i32 from its argument, `g` from its argument and 1.
    (
        "load",
        "0061736d0100000001060160017f017f0303020000050301000107090201660000016700010a1102070020002802000b070020002802010b",
    ),
    // One page, and no maximum. `f` grows the memory by its argument, `size` gives how many pages it has.
    (
        "grow",
        "0061736d01000000010a0260017f017f6000017f03030200010503010001070c02016600000473697a6500010a0d020600200040000b04003f000b",
    ),
    // One page, and two at most. `f` grows the memory by its argument.
    (
        "bounded",
        "0061736d0100000001060160017f017f03020100050401010102070501016600000a08010600200040000b",
    ),
    // One page. `f` stores the low byte of its argument at 0.
    (
        "keep",
        "0061736d0100000001050160017f00030201000503010001070501016600000a0b010900410020003a00000b",
    ),
    // One page. `set8` stores a byte at its first argument, `get8` loads one; `set` and `get` do so with an i64.
    (
        "words",
        "0061736d0100000001150460027f7f0060017f017f60027f7e0060017f017e030504000102030503010001071b0404736574380000046765743800010373657400020367657400030a25040900200020013a00000b070020002d00000b0900200020013700000b070020002900000b",
    ),
    // `f` gives 1, by a branch out of a block past an addition.
    (
        "branch",
        "0061736d010000000105016000017f03020100070501016600000a0c010a00027f41010c006a0b0b",
    ),
    // The same with an i64 after the branch.
    (
        "mistyped_branch",
        "0061736d010000000105016000017f03020100070501016600000a0e010c00027f41010c0042006a0b0b",
    ),
    // One page. `f` adds 1 to the i32 at 0 and calls itself, `g` gives that i32.
    (
        "deep",
        "0061736d010000000108026000006000017f0303020001050301000107090201660000016700010a1b0211004100410028020041016a36020010000b070041002802000b",
    ),
    // A table of two entries, the first a function that gives 7. `f` calls the entry of its argument as such a
    // function, `g` calls it with its argument.
    (
        "indirect",
        "0061736d01000000010a026000017f60017f017f03040300010104040170000207090201660001016700020907010041000b01000a1803040041070b070020001100000b0900200020001101000b",
    ),
    // The start is unreachable; `f` does nothing.
    (
        "dead",
        "0061736d010000000104016000000303020000070501016600010801000a08020300000b02000b",
    ),
    // The start is a loop that goes on forever; `f` does nothing.
    (
        "start_loop",
        "0061736d010000000104016000000303020000070501016600010801000a0c02070003400c000b0b02000b",
    ),
    // One page, with a byte 9 at 3. The start does nothing three times; `f` gives the byte at its argument.
    (
        "start_nops",
        "0061736d0100000001090260000060017f017f03030200010503010001070501016600010801000a0f0205000101010b070020002d00000b0b07010041030b0109",
    ),
    // One page, with the bytes 1, 2, 3 at 4094. `f` gives the byte at its argument.
    (
        "pieces",
        "0061736d0100000001060160017f017f030201000503010001070501016600000a0901070020002d00000b0b0a010041fe1f0b03010203",
    ),
    // One page, with a byte in its last place.
    (
        "byte_at_end",
        "0061736d0100000005030100010b09010041ffff030b0101",
    ),
    // One page, with a byte in its last place and one after it.
    (
        "byte_past_end",
        "0061736d0100000005030100010b0a010041ffff030b020102",
    ),
    // One page, with no bytes after its last place.
    (
        "none_at_end",
        "0061736d0100000005030100010b080100418080040b00",
    ),
    // One page, with no bytes one further.
    (
        "none_past_end",
        "0061736d0100000005030100010b080100418180040b00",
    ),
    // A table of one entry, with two.
    (
        "entry_past_end",
        "0061736d01000000010401600000030201000404017000010908010041000b0200000a040102000b",
    ),
    // One page. `put` puts the i64 5, `emit` emits from its first argument on as many bytes as its second, `set8`
    // stores a byte.
    (
        "speak",
        "0061736d01000000010d0360017e0060027f7f0060000002180204686f737403707574000004686f737404656d69740001030403020101050301000107150303707574000204656d69740003047365743800040a1b030600420510000b08002000200110010b0900200020013a00000b",
    ),
    // No memory. `f` emits.
    (
        "speechless",
        "0061736d0100000001060160027f7f00020d0104686f737404656d6974000003020100070501016600010a0a0108002000200110000b",
    ),
    // `at0`, `at1`, `at2` and `last` give the input at 0, 1, 2 and 4294967295; `base` and `salt` give what they are
    // named after; `input` is the host's, and `b` a global.
    (
        "given",
        "0061736d01000000010e0360017f017e6000017e6000017f02280304686f737405696e707574000004686f73740462617365037f0004686f73740473616c74037e00030706010101010201073408036174300001036174310002036174320003046c6173740004046261736500050473616c74000605696e7075740000016203000a27060600410010000b0600410110000b0600410210000b0600417f10000b040023000b040023010b",
    ),
    // `f` gives its i32, `g` its i64; `#A.b/-` does nothing.
    (
        "echo",
        "0061736d01000000010e0360017f017f60017e017e60000003040300010207120301660000016700010623412e622f2d00020a0e03040020000b040020000b02000b",
    ),
    // An item that the host doesn't have.
    (
        "unknown_import",
        "0061736d0100000001060160017f017e02090103656e7601780000",
    ),
    // An item of the host with another type.
    (
        "other_import",
        "0061736d0100000001060160017f017f020e0104686f737405696e7075740000",
    ),
    // The first seven bytes of a module.
    ("cut", "0061736d010000"),
    // No bytes at all.
    ("empty", ""),
];

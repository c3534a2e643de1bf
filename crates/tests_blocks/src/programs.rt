// The bytes that `wat2wasm` of wabt 1.0.32 gives for this text:
//
//     (module
//       (memory 1)
//       (data (i32.const 8) "")
//       (func (export "put") (i32.store8 (i32.const 0) (i32.const 1))))

pub const STORING: &[u8] = &[
    0, 97, 115, 109, 1, 0, 0, 0, 1, 4, 1, 96, 0, 0, 3, 2, 1, 0, 5, 3, 1, 0, 1, 7, 7, 1, 3, 112,
    117, 116, 0, 0, 10, 11, 1, 9, 0, 65, 0, 65, 1, 58, 0, 0, 11, 11, 6, 1, 0, 65, 8, 11, 0,
];

// The same for this text:
//
//     (module
//       (memory 1)
//       (func (export "by_256") (result i32) (memory.grow (i32.const 256)))
//       (func (export "by_1023") (result i32) (memory.grow (i32.const 1023)))
//       (func (export "by_1024") (result i32) (memory.grow (i32.const 1024)))
//       (func (export "size_after") (result i32)
//         (drop (memory.grow (i32.const 1023))) (drop (memory.grow (i32.const 1))) (memory.size))
//       (func (export "last_byte") (result i32)
//         (drop (memory.grow (i32.const 1023)))
//         (i32.store8 (i32.const 67108863) (i32.const 9))
//         (i32.load8_u (i32.const 67108863)))
//       (func (export "past") (result i32)
//         (drop (memory.grow (i32.const 1023))) (i32.load8_u (i32.const 67108864))))

pub const PAGES: &[u8] = &[
    0, 97, 115, 109, 1, 0, 0, 0, 1, 5, 1, 96, 0, 1, 127, 3, 7, 6, 0, 0, 0, 0, 0, 0, 5, 3, 1, 0, 1,
    7, 62, 6, 6, 98, 121, 95, 50, 53, 54, 0, 0, 7, 98, 121, 95, 49, 48, 50, 51, 0, 1, 7, 98, 121,
    95, 49, 48, 50, 52, 0, 2, 10, 115, 105, 122, 101, 95, 97, 102, 116, 101, 114, 0, 3, 9, 108, 97,
    115, 116, 95, 98, 121, 116, 101, 0, 4, 4, 112, 97, 115, 116, 0, 5, 10, 85, 6, 7, 0, 65, 128, 2,
    64, 0, 11, 7, 0, 65, 255, 7, 64, 0, 11, 7, 0, 65, 128, 8, 64, 0, 11, 15, 0, 65, 255, 7, 64, 0,
    26, 65, 1, 64, 0, 26, 63, 0, 11, 26, 0, 65, 255, 7, 64, 0, 26, 65, 255, 255, 255, 31, 65, 9,
    58, 0, 0, 65, 255, 255, 255, 31, 45, 0, 0, 11, 16, 0, 65, 255, 7, 64, 0, 26, 65, 128, 128, 128,
    32, 45, 0, 0, 11,
];

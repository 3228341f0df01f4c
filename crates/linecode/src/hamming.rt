// The Hamming bits of a line: positions, the bits that it holds, and the place that a syndrome names.
ghost use Rattle.std.specs.Prelude.{◌≡◌};
ghost use Rattle.gf2.specs.Word.{number};
ghost use Rattle.gf2.specs.Check.{column_sum};
ghost use Rattle.linecode.specs.Places.{places, line_of};
ghost use Rattle.linecode.specs.Code.{protected, positions, PositionTable, with_hamming, stored_hamming, index_of, answer_to};

// The position of each protected place: ascending from 3, without the powers of two. Read-only data, which each search reads where it stands.
static POSITIONS: [u16; 543] = [
    3, 5, 6, 7, 9, 10, 11, 12, 13, 14, 15, 17, 18, 19, 20, 21, 22, 23, 24, 25, 26, 27, 28, 29, 30,
    31, 33, 34, 35, 36, 37, 38, 39, 40, 41, 42, 43, 44, 45, 46, 47, 48, 49, 50, 51, 52, 53, 54, 55,
    56, 57, 58, 59, 60, 61, 62, 63, 65, 66, 67, 68, 69, 70, 71, 72, 73, 74, 75, 76, 77, 78, 79, 80,
    81, 82, 83, 84, 85, 86, 87, 88, 89, 90, 91, 92, 93, 94, 95, 96, 97, 98, 99, 100, 101, 102, 103,
    104, 105, 106, 107, 108, 109, 110, 111, 112, 113, 114, 115, 116, 117, 118, 119, 120, 121, 122,
    123, 124, 125, 126, 127, 129, 130, 131, 132, 133, 134, 135, 136, 137, 138, 139, 140, 141, 142,
    143, 144, 145, 146, 147, 148, 149, 150, 151, 152, 153, 154, 155, 156, 157, 158, 159, 160, 161,
    162, 163, 164, 165, 166, 167, 168, 169, 170, 171, 172, 173, 174, 175, 176, 177, 178, 179, 180,
    181, 182, 183, 184, 185, 186, 187, 188, 189, 190, 191, 192, 193, 194, 195, 196, 197, 198, 199,
    200, 201, 202, 203, 204, 205, 206, 207, 208, 209, 210, 211, 212, 213, 214, 215, 216, 217, 218,
    219, 220, 221, 222, 223, 224, 225, 226, 227, 228, 229, 230, 231, 232, 233, 234, 235, 236, 237,
    238, 239, 240, 241, 242, 243, 244, 245, 246, 247, 248, 249, 250, 251, 252, 253, 254, 255, 257,
    258, 259, 260, 261, 262, 263, 264, 265, 266, 267, 268, 269, 270, 271, 272, 273, 274, 275, 276,
    277, 278, 279, 280, 281, 282, 283, 284, 285, 286, 287, 288, 289, 290, 291, 292, 293, 294, 295,
    296, 297, 298, 299, 300, 301, 302, 303, 304, 305, 306, 307, 308, 309, 310, 311, 312, 313, 314,
    315, 316, 317, 318, 319, 320, 321, 322, 323, 324, 325, 326, 327, 328, 329, 330, 331, 332, 333,
    334, 335, 336, 337, 338, 339, 340, 341, 342, 343, 344, 345, 346, 347, 348, 349, 350, 351, 352,
    353, 354, 355, 356, 357, 358, 359, 360, 361, 362, 363, 364, 365, 366, 367, 368, 369, 370, 371,
    372, 373, 374, 375, 376, 377, 378, 379, 380, 381, 382, 383, 384, 385, 386, 387, 388, 389, 390,
    391, 392, 393, 394, 395, 396, 397, 398, 399, 400, 401, 402, 403, 404, 405, 406, 407, 408, 409,
    410, 411, 412, 413, 414, 415, 416, 417, 418, 419, 420, 421, 422, 423, 424, 425, 426, 427, 428,
    429, 430, 431, 432, 433, 434, 435, 436, 437, 438, 439, 440, 441, 442, 443, 444, 445, 446, 447,
    448, 449, 450, 451, 452, 453, 454, 455, 456, 457, 458, 459, 460, 461, 462, 463, 464, 465, 466,
    467, 468, 469, 470, 471, 472, 473, 474, 475, 476, 477, 478, 479, 480, 481, 482, 483, 484, 485,
    486, 487, 488, 489, 490, 491, 492, 493, 494, 495, 496, 497, 498, 499, 500, 501, 502, 503, 504,
    505, 506, 507, 508, 509, 510, 511, 513, 514, 515, 516, 517, 518, 519, 520, 521, 522, 523, 524,
    525, 526, 527, 528, 529, 530, 531, 532, 533, 534, 535, 536, 537, 538, 539, 540, 541, 542, 543,
    544, 545, 546, 547, 548, 549, 550, 551, 552, 553,
];

// What a syndrome answers: none, Hamming bit k, or protected place i. Document 01 names this form, an enum that a let .. else takes apart
// before the flip: so it is no Option of a place.
#[derive(Clone, Copy, PartialEq, Eq)]
pub enum Answer {
    None,
    Hamming(usize),
    Protected(usize),
}

// The Hamming bits that a line holds.
pub fn stored(line: [u8; 70]) -> u16
    ensures { result ≡ number (stored_hamming (places line)) }
{
    u16::from_le_bytes([line[68], line[69] % 4])
}

// What a syndrome answers: the protected place whose position it is, the Hamming bit whose power of two it is, or none.
pub fn answer_to(syndrome: u16) -> Answer
    ensures { result ≡ answer_to syndrome }
{
    if 553 < syndrome {
        return Answer::None;
    }
    match POSITIONS.binary_search(&syndrome) {
        Ok(i) => Answer::Protected(i),
        Err(_) if syndrome.is_power_of_two() => Answer::Hamming(syndrome.trailing_zeros() as usize),
        Err(_) => Answer::None,
    }
}

// The protected places with the sum of their positions as Hamming bits, spare bits 0. Public for the crates above, which have the sum.
// Line and sum are no struct: it would be made where it is used, and the clause would then stand there.
pub fn with_bits(line: [u8; 70], sum: u16) -> [u8; 70]
    requires { sum ≡ column_sum positions (protected (places line)) }
    ensures { result ≡ line_of (with_hamming (protected (places line))) }
{
    let mut whole = line;
    whole[67] %= 128;
    [whole[68], whole[69]] = sum.to_le_bytes();
    whole
}

//! The sixteen characters that stand for a sum.
ghost use Rattle.std.specs.Prelude.{◌≡◌};
ghost use Rattle.fz_sum.specs.Characters as specified;

/// The sixteen characters for this sum, which are digits, capitals and small letters (FITS 4.0, appendix J). In
/// place of sixteen times `0` they bring the sum of an HDU up to 4294967295.
pub fn characters(sum: u32) -> [u8; 16]
    ensures { result ≡ specified.characters sum }
{
    let [first, second, third, last] = (!sum).to_be_bytes();
    let a = byte_characters(first);
    let b = byte_characters(second);
    let c = byte_characters(third);
    let d = byte_characters(last);
    [
        d[3], a[0], b[0], c[0], d[0], a[1], b[1], c[1], d[1], a[2], b[2], c[2], d[2], a[3], b[3],
        c[3],
    ]
}

/// An array of these rows.
macro_rules! rows {
    ($($row:literal)*) => { [$(*$row),*] };
}

/// The four characters of a byte.
fn byte_characters(byte: u8) -> [u8; 4]
    ensures { result ≡ specified.byte_characters byte }
{
    static ROWS: [[u8; 4]; 256] = rows!(
        b"0000" b"1000" b"2000" b"3000" b"1111" b"2111" b"3111" b"4111"
        b"2222" b"3222" b"4222" b"5222" b"3333" b"4333" b"5333" b"6333"
        b"4444" b"5444" b"6444" b"7444" b"5555" b"6555" b"7555" b"8555"
        b"6666" b"7666" b"8666" b"9666" b"7777" b"8777" b"9777" b"A077"
        b"8888" b"9888" b"A188" b"A288" b"9999" b"A299" b"A399" b"A499"
        b"A3A3" b"A4A3" b"A5A3" b"A6A3" b"A5A5" b"A6A5" b"A7A5" b"A8A5"
        b"A7A7" b"A8A7" b"A9A7" b"B9A7" b"A9A9" b"B9A9" b"C9A9" b"D9A9"
        b"C9C9" b"D9C9" b"E9C9" b"F9C9" b"E9E9" b"F9E9" b"G9E9" b"H9E9"
        b"G9G9" b"H9G9" b"I9G9" b"J9G9" b"AAAA" b"BAAA" b"CAAA" b"DAAA"
        b"BBBB" b"CBBB" b"DBBB" b"EBBB" b"CCCC" b"DCCC" b"ECCC" b"FCCC"
        b"DDDD" b"EDDD" b"FDDD" b"GDDD" b"EEEE" b"FEEE" b"GEEE" b"HEEE"
        b"FFFF" b"GFFF" b"HFFF" b"IFFF" b"GGGG" b"HGGG" b"IGGG" b"JGGG"
        b"HHHH" b"IHHH" b"JHHH" b"KHHH" b"IIII" b"JIII" b"KIII" b"LIII"
        b"JJJJ" b"KJJJ" b"LJJJ" b"MJJJ" b"KKKK" b"LKKK" b"MKKK" b"NKKK"
        b"LLLL" b"MLLL" b"NLLL" b"OLLL" b"MMMM" b"NMMM" b"OMMM" b"PMMM"
        b"NNNN" b"ONNN" b"PNNN" b"QNNN" b"OOOO" b"POOO" b"QOOO" b"ROOO"
        b"PPPP" b"QPPP" b"RPPP" b"SPPP" b"QQQQ" b"RQQQ" b"SQQQ" b"TQQQ"
        b"RRRR" b"SRRR" b"TRRR" b"URRR" b"SSSS" b"TSSS" b"USSS" b"VSSS"
        b"TTTT" b"UTTT" b"VTTT" b"WTTT" b"UUUU" b"VUUU" b"WUUU" b"XUUU"
        b"VVVV" b"WVVV" b"XVVV" b"YVVV" b"WWWW" b"XWWW" b"YWWW" b"ZWWW"
        b"XXXX" b"YXXX" b"ZXXX" b"aRXX" b"YYYY" b"ZYYY" b"aSYY" b"aTYY"
        b"ZZZZ" b"aTZZ" b"aUZZ" b"aVZZ" b"aUaU" b"aVaU" b"aWaU" b"aXaU"
        b"aWaW" b"aXaW" b"aYaW" b"aZaW" b"aYaY" b"aZaY" b"bZaY" b"cZaY"
        b"bZbZ" b"cZbZ" b"dZbZ" b"eZbZ" b"dZdZ" b"eZdZ" b"fZdZ" b"gZdZ"
        b"fZfZ" b"gZfZ" b"hZfZ" b"iZfZ" b"aaaa" b"baaa" b"caaa" b"daaa"
        b"bbbb" b"cbbb" b"dbbb" b"ebbb" b"cccc" b"dccc" b"eccc" b"fccc"
        b"dddd" b"eddd" b"fddd" b"gddd" b"eeee" b"feee" b"geee" b"heee"
        b"ffff" b"gfff" b"hfff" b"ifff" b"gggg" b"hggg" b"iggg" b"jggg"
        b"hhhh" b"ihhh" b"jhhh" b"khhh" b"iiii" b"jiii" b"kiii" b"liii"
        b"jjjj" b"kjjj" b"ljjj" b"mjjj" b"kkkk" b"lkkk" b"mkkk" b"nkkk"
        b"llll" b"mlll" b"nlll" b"olll" b"mmmm" b"nmmm" b"ommm" b"pmmm"
        b"nnnn" b"onnn" b"pnnn" b"qnnn" b"oooo" b"pooo" b"qooo" b"rooo"
    );
    ROWS[byte as usize]
}

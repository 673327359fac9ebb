//! The plan of a packed image, in numbers that cross to C.

/// A column of array descriptors, or none.
#[repr(C)]
#[derive(Clone, Copy, PartialEq)]
pub struct FzArrays {
    /// The byte of the row at which its descriptor begins.
    pub at: u32,
    /// 1 if the descriptor has two numbers of 64 bits, and 0 if of 32.
    pub wide: u32,
    /// The bytes of one element of the described array. 0 if the column is not there: so are the others.
    pub unit: u32,
}

/// How a packed image is packed, and where its table is in the file (FITS 4.0, sections 7.3.5 and 10.1).
#[repr(C)]
#[derive(Clone, Copy, PartialEq)]
pub struct FzPlan {
    /// The byte of the file at which the first row begins.
    pub rows_at: u64,
    /// The byte of the file at which the heap begins.
    pub heap_at: u64,
    /// The length of the heap in bytes.
    pub heap_len: u64,
    /// The length of a row in bytes.
    pub row_bytes: u32,
    /// The number of rows, which is that of tiles.
    pub rows: u32,
    /// The column COMPRESSED_DATA.
    pub coded: FzArrays,
    /// The column UNCOMPRESSED_DATA.
    pub stored: FzArrays,
    /// The column GZIP_COMPRESSED_DATA.
    pub gzip: FzArrays,
    /// 0 NOCOMPRESS, 1 RICE_1, 2 PLIO_1.
    pub codec: u32,
    /// BLOCKSIZE of RICE_1, otherwise 0.
    pub block: u32,
    /// BYTEPIX of RICE_1, otherwise 0.
    pub bytepix: u32,
    /// The bits of a pixel: 8, 16, 32 or 64.
    pub bitpix: i32,
    /// The number of axes.
    pub axes: u32,
    /// Their lengths, and 0 from `axes` on.
    pub lengths: [u32; 9],
    /// The lengths of a tile, and 0 from `axes` on.
    pub tile: [u32; 9],
    /// 1 if the image was a primary, and 0 if it was an extension.
    pub primary: u32,
}

// Sheets at the limits: many facts, many steps, many bytes.
use std::alloc::{AllocError, Global};

// A line that names a fact or a step by 15 bytes, other ones for each number below 1000.
fn line(sheet: &mut Vec<u8>, kind: &[u8], number: usize) -> Result<(), AllocError> {
    let [hundreds, tens, ones] = [number / 100, number / 10, number].map(|n| (n % 10) as u8);
    sheet.extend_from_slice(kind)?;
    sheet.extend_from_slice(b"abcdefghijkl")?;
    sheet.extend_from_slice(&[b'a' + hundreds, b'0' + tens, b'0' + ones, b'\n'])
}

// The lines up to the facts, and so many of these.
pub(crate) fn facts(heap: Global, count: usize) -> Result<Vec<u8>, AllocError> {
    let mut sheet = Vec::new(heap);
    sheet.extend_from_slice(b"MXP 1\nl 32\n")?;
    for fact in 0..count {
        line(&mut sheet, b"f ", fact)?;
    }
    Ok(sheet)
}

// The first fact once more, as the 65th.
pub(crate) fn again(heap: Global) -> Result<Vec<u8>, AllocError> {
    let mut sheet = facts(heap, 64)?;
    line(&mut sheet, b"f ", 0)?;
    Ok(sheet)
}

// A sheet with 64 facts and so many steps, with no needs and no makes.
pub(crate) fn steps(heap: Global, count: usize) -> Result<Vec<u8>, AllocError> {
    let mut sheet = facts(heap, 64)?;
    for step in 0..count {
        line(&mut sheet, b"s ", step)?;
    }
    Ok(sheet)
}

// A line on each fact, while there is room; the first of them have a minus, until what is left is filled by lines of 18 bytes.
fn amend(sheet: &mut Vec<u8>, plain: &[u8], minus: &[u8], bytes: usize) -> Result<(), AllocError> {
    for fact in 0..64 {
        match bytes.saturating_sub(sheet.len()) {
            0..18 => return Ok(()),
            left if left % 18 == 0 => line(sheet, plain, fact)?,
            _ => line(sheet, minus, fact)?,
        }
    }
    Ok(())
}

// A sheet of exactly so many bytes, if they are some thousands: steps with as many needs and makes as fit.
pub(crate) fn bytes(heap: Global, count: usize) -> Result<Vec<u8>, AllocError> {
    let mut sheet = facts(heap, 64)?;
    for step in 0..256 {
        if count.saturating_sub(sheet.len()) >= 18 {
            line(&mut sheet, b"s ", step)?;
            amend(&mut sheet, b"n ", b"n -", count)?;
            amend(&mut sheet, b"m ", b"m -", count)?;
        }
    }
    Ok(sheet)
}

//! The crate `test_probe` for C, a static library for tests alone: each function calls the one of
//! its name there. The contracts promise safety and termination, and no more.
#![tactic(auto)]

use refusals::report;

/// The events of a document, up to the end or a refusal (`test_probe::events`).
#[unsafe(no_mangle)]
pub extern "C" fn probe_events(
    document: &[u8],
    output: &mut [u8],
    offset: &mut usize,
    place: &mut usize,
    n: &mut usize,
) -> u32 {
    let reading = test_probe::events(document, output);
    let answer = match reading.refusal {
        Some(r) => Err(r),
        None => Ok(reading.n),
    };
    let number = report(answer, offset, place, n);
    *n = reading.n;
    number
}

/// The model of a document (`test_probe::dump::schema`).
#[unsafe(no_mangle)]
pub extern "C" fn probe_schema(
    document: &[u8],
    records: &mut [u32],
    text: &mut [u8],
    output: &mut [u8],
    offset: &mut usize,
    place: &mut usize,
    n: &mut usize,
) -> u32 {
    let answer = test_probe::dump::schema(document, records, text, output);
    report(answer, offset, place, n)
}

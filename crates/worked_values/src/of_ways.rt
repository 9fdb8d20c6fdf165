// What is counted by the last round of a probe, 33 or 7: the words of a sheet, the bytes drawn for it,
// and the words that a party says in a round.
pub(crate) fn print() {
    lasts();
    sheets();
    widths();
}

// 33 and 7, their neighbours, and 0.
fn lasts() {
    report::title(b"last rounds:");
    for round in [33, 7, 32, 34, 6, 8, 0] {
        report::yes_or_no(ways::is_way(round));
    }
    report::end();
}

// The words, and the bytes of 3, 5, 7 and 9 parties.
fn sheets() {
    report::title(b"a sheet of 33 rounds:");
    sheet(33);
    report::end();

    report::title(b"a sheet of seven rounds:");
    sheet(7);
    report::end();
}

// Seven rounds: from round 0 to 8, then 33 to 36. Only rounds 2 to 6 have more words than one. Of 33 rounds
// none has: from round 1 to 3, then 33 to 35.
fn widths() {
    report::title(b"words said of seven rounds:");
    said(7, 0, 9);
    said(7, 33, 37);
    report::end();

    report::title(b"words said of 33 rounds:");
    said(33, 1, 4);
    said(33, 33, 36);
    report::end();
}

fn sheet(last: u64) {
    report::number(ways::sheet_words(last) as u64);
    for t in 1..5 {
        report::number(ways::drawn_bytes(last, t) as u64);
    }
}

fn said(last: u64, from: u64, to: u64) {
    for round in from..to {
        report::number(ways::width(last, round) as u64);
    }
}

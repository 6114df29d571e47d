//! Crashes at each call and at each byte, and what is recovered from each cut of the file.
use crate::disk::Disk;
use crate::notes::Notes;
use journal::{Exchange, RecoveryFault, open, recover, serve_round};
use std::alloc::{AllocError, Global};
use std::test::Fail;

/// More calls than a run of the tests makes.
const ALL: usize = 1000;

/// Returns a round of these requests.
fn round_of(alloc: Global, requests: &[&str]) -> Result<Vec<Exchange>, AllocError> {
    let mut round = Vec::new(alloc);
    for request in requests {
        let request = request.as_bytes().to_vec(alloc)?;
        let reply = Vec::new(alloc);
        match round.push(Exchange { request, reply }) {
            Ok(()) => {}
            Err(_) => return Err(AllocError),
        }
    }
    Ok(round)
}

/// Opens an empty file and serves three rounds: of two notes, a query alone, and two notes and a query. The call after
/// `left` others fails.
fn served(alloc: Global, left: usize, part: usize) -> Result<Disk, AllocError> {
    let mut disk = Disk::new(alloc, Vec::new(alloc), left, part);
    let mut notes = Notes::new(alloc);
    let mut entry = Vec::new(alloc);
    let mut rounds = vec![in alloc;
        round_of(alloc, &["a", "b"])?,
        round_of(alloc, &[""])?,
        round_of(alloc, &["c", "", "d"])?,
    ]?;
    if open(&mut disk, &mut notes, b"", &mut entry).is_err() {
        return Ok(disk);
    }
    for round in rounds.iter_mut() {
        if serve_round(&mut disk, &mut notes, round, &mut entry).is_err() {
            return Ok(disk);
        }
    }
    Ok(disk)
}

/// Returns how many notes are recovered from some bytes: all of the first rounds, or none of a round.
fn found(alloc: Global, file: &[u8]) -> usize {
    let mut notes = Notes::new(alloc);
    match recover(&mut notes, file) {
        Ok(_) if b"abcd".starts_with(notes.notes()) => notes.notes().len(),
        _ => usize::MAX,
    }
}

/// Returns how many notes the first replies acknowledge.
fn acknowledged(replies: usize) -> usize {
    match replies {
        0 => 0,
        1 => 1,
        2 | 3 => 2,
        4 | 5 => 3,
        _ => 4,
    }
}

#[test]
fn each_cut_has_each_note_whose_reply_was_sent(rt: HostRuntime) -> Result<(), Fail> {
    let alloc = rt.alloc();
    for left in 0..17 {
        for part in 0..5 {
            let disk = served(alloc, left, part)?;
            let file = disk.file();
            let least = acknowledged(disk.sent());
            for cut in disk.durable()..file.len() + 1 {
                let found = found(alloc, &file[..cut]);
                assert!(rt; least <= found);
                assert!(rt; found == 0 || found == 2 || found == 4);
            }
        }
    }
    let all = served(alloc, ALL, 0)?;
    assert_eq!(rt; all.sent(), 6);
    assert_eq!(rt; all.file(), &b"#\n#ab\n#cd\n"[..]);
    Ok(())
}

#[test]
fn zeros_and_lost_bytes_behind_a_cut_are_torn(rt: HostRuntime) -> Result<(), Fail> {
    let alloc = rt.alloc();
    for cut in 0..11 {
        let mut file = b"#\n#ab\n#cd\n"[..cut].to_vec(alloc)?;
        let wanted = found(alloc, &file);
        file.extend_from_slice(b"\0\0\n\0")?;
        // zeros behind a cut within a line are part of the line, which a real checksum shows; `#` alone does not
        if cut == 0 || cut == 2 || cut == 6 || cut == 10 {
            assert_eq!(rt; found(alloc, &file), wanted);
        }
    }
    Ok(())
}

#[test]
fn a_damaged_middle_is_refused_with_its_offset(rt: HostRuntime) -> Result<(), Fail> {
    let alloc = rt.alloc();
    let mut notes = Notes::new(alloc);
    assert!(rt;
        matches!(
            recover(&mut notes, b"#\nxab\n#cd\n"),
            Err(RecoveryFault::Damaged(2))
        )
    );
    let mut notes = Notes::new(alloc);
    assert!(rt; matches!(recover(&mut notes, b"#\n#ab\nxcd\nx\nx"), Ok(6)));
    assert_eq!(rt; notes.notes(), &b"ab"[..]);
    Ok(())
}

#[test]
fn an_opening_may_fail_at_each_call(rt: HostRuntime) -> Result<(), Fail> {
    let alloc = rt.alloc();
    for left in 0..5 {
        for part in 0..3 {
            for cut in 0..11 {
                let before = b"#\n#ab\n#cd\n"[..cut].to_vec(alloc)?;
                let wanted = found(alloc, &before);
                let read = before.to_vec(alloc)?;
                let mut disk = Disk::new(alloc, before, left, part);
                let mut notes = Notes::new(alloc);
                let mut entry = Vec::new(alloc);
                let opened = open(&mut disk, &mut notes, &read, &mut entry).is_ok();
                let file = disk.file();
                for end in disk.durable()..file.len() + 1 {
                    assert_eq!(rt; found(alloc, &file[..end]), wanted);
                }
                assert!(rt; !opened || disk.durable() == file.len());
            }
        }
    }
    Ok(())
}

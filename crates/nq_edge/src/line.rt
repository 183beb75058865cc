// Lines that are put in pieces, which takes no memory.
ghost use Rattle.std.specs.Prelude.{◌++◌};
ghost use Rattle.nq_edge.specs.Lines.{PutsLine};

use crate::sink::Sink;

/// Puts a line of one piece, or a prefix of it where the put fails.
pub fn put_one<N: Sink>(notes: &mut N, piece: &[u8])
    ensures { PutsLine (N.written notes.old) (N.written notes.new)
        (N.faults notes.old) (N.faults notes.new) piece.now }
{
    let _ = notes.put(piece);
}

/// Puts a line of two pieces, the second only where the first was put whole.
pub fn put_two<N: Sink>(notes: &mut N, first: &[u8], second: &[u8])
    ensures { PutsLine (N.written notes.old) (N.written notes.new)
        (N.faults notes.old) (N.faults notes.new)
        (first.now ++ second.now) }
{
    match notes.put(first) {
        Ok(()) => put_one(notes, second),
        Err(_) => {}
    }
}

/// Puts a line of three pieces, each only where those before it were put whole.
pub fn put_three<N: Sink>(notes: &mut N, first: &[u8], second: &[u8], third: &[u8])
    ensures { PutsLine (N.written notes.old) (N.written notes.new)
        (N.faults notes.old) (N.faults notes.new)
        (first.now ++ (second.now ++ third.now)) }
{
    match notes.put(first) {
        Ok(()) => put_two(notes, second, third),
        Err(_) => {}
    }
}

/// Puts a line of four pieces, each only where those before it were put whole.
pub fn put_four<N: Sink>(notes: &mut N, first: &[u8], second: &[u8], third: &[u8], fourth: &[u8])
    ensures { PutsLine (N.written notes.old) (N.written notes.new)
        (N.faults notes.old) (N.faults notes.new)
        (first.now ++ (second.now ++ (third.now ++ fourth.now))) }
{
    match notes.put(first) {
        Ok(()) => put_three(notes, second, third, fourth),
        Err(_) => {}
    }
}

/// Puts a line of five pieces, each only where those before it were put whole.
pub fn put_five<N: Sink>(
    notes: &mut N,
    first: &[u8],
    second: &[u8],
    third: &[u8],
    fourth: &[u8],
    fifth: &[u8],
)
    ensures { PutsLine (N.written notes.old) (N.written notes.new)
        (N.faults notes.old) (N.faults notes.new)
        (first.now ++ (second.now ++ (third.now ++ (fourth.now ++ fifth.now)))) }
{
    match notes.put(first) {
        Ok(()) => put_four(notes, second, third, fourth, fifth),
        Err(_) => {}
    }
}

/// Puts a line of six pieces, each only where those before it were put whole.
pub fn put_six<N: Sink>(
    notes: &mut N,
    first: &[u8],
    second: &[u8],
    third: &[u8],
    fourth: &[u8],
    fifth: &[u8],
    sixth: &[u8],
)
    ensures { PutsLine (N.written notes.old) (N.written notes.new)
        (N.faults notes.old) (N.faults notes.new)
        (first.now ++ (second.now ++ (third.now ++ (fourth.now ++ (fifth.now ++ sixth.now))))) }
{
    match notes.put(first) {
        Ok(()) => put_five(notes, second, third, fourth, fifth, sixth),
        Err(_) => {}
    }
}

/// Puts a line of seven pieces, each only where those before it were put whole.
pub fn put_seven<N: Sink>(
    notes: &mut N,
    first: &[u8],
    second: &[u8],
    third: &[u8],
    fourth: &[u8],
    fifth: &[u8],
    sixth: &[u8],
    seventh: &[u8],
)
    ensures { PutsLine (N.written notes.old) (N.written notes.new)
        (N.faults notes.old) (N.faults notes.new)
        (first.now ++ (second.now
        ++ (third.now ++ (fourth.now ++ (fifth.now ++ (sixth.now ++ seventh.now)))))) }
{
    match notes.put(first) {
        Ok(()) => put_six(notes, second, third, fourth, fifth, sixth, seventh),
        Err(_) => {}
    }
}

/// Puts a line of eight pieces, each only where those before it were put whole.
pub fn put_eight<N: Sink>(
    notes: &mut N,
    first: &[u8],
    second: &[u8],
    third: &[u8],
    fourth: &[u8],
    fifth: &[u8],
    sixth: &[u8],
    seventh: &[u8],
    eighth: &[u8],
)
    ensures { PutsLine (N.written notes.old) (N.written notes.new)
        (N.faults notes.old) (N.faults notes.new)
        (first.now ++ (second.now ++ (third.now ++ (fourth.now
        ++ (fifth.now ++ (sixth.now ++ (seventh.now ++ eighth.now))))))) }
{
    match notes.put(first) {
        Ok(()) => put_seven(notes, second, third, fourth, fifth, sixth, seventh, eighth),
        Err(_) => {}
    }
}

/// Puts a line of nine pieces, each only where those before it were put whole.
pub fn put_nine<N: Sink>(
    notes: &mut N,
    first: &[u8],
    second: &[u8],
    third: &[u8],
    fourth: &[u8],
    fifth: &[u8],
    sixth: &[u8],
    seventh: &[u8],
    eighth: &[u8],
    ninth: &[u8],
)
    ensures { PutsLine (N.written notes.old) (N.written notes.new)
        (N.faults notes.old) (N.faults notes.new)
        (first.now ++ (second.now ++ (third.now ++ (fourth.now
        ++ (fifth.now ++ (sixth.now ++ (seventh.now ++ (eighth.now ++ ninth.now)))))))) }
{
    match notes.put(first) {
        Ok(()) => put_eight(
            notes, second, third, fourth, fifth, sixth, seventh, eighth, ninth,
        ),
        Err(_) => {}
    }
}

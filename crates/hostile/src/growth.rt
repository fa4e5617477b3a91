// Scripts that are grown around an int, so that most of them are accepted and do much.
use super::random::Random;
use std::alloc::{AllocError, Global};

const LISTS: &str =
    "(datatype l ([c (int l)] [n ()])) (: len (-> (l) int)) (define len (s) (case s [(c _ r) (+ 1 (len r))] [(n) 0])) \
(: up (-> (int) l)) (define up (k) (if (< k 1) (n) (c k (up (- k 1))))) (val seven 7) (: twice (-> (l) int)) \
(define twice (s) (+ (len (dup s)) (len s))) (: main (-> () unit)) (define main () (print-int ";

// What goes around an int and gives an int.
const AROUND: [(&str, &str); 16] = [
    ("(+ ", " 3)"),
    ("(* seven ", ")"),
    ("(/ 1000 ", ")"),
    ("(% ", " seven)"),
    ("(<< 1 ", ")"),
    ("(neg ", ")"),
    ("(if (< ", " 5) 1 40)"),
    ("(begin (print-sym 'so it\\'s ') ", ")"),
    ("(begin (print-int ", ") (print-newline) 9)"),
    ("(let ([k ", "]) (- k 2))"),
    ("(case (c ", " (n)) [(n) 0] [(c k _) k])"),
    ("(case (up ", ") [(c k r) (+ k (len r))])"),
    ("(len (up ", "))"),
    ("(twice (up ", "))"),
    ("(+ (in) ", ")"),
    ("(begin (up ", ") (c 1 (n)) 12)"),
];

fn around(random: &mut Random) -> (&'static str, &'static str) {
    let i = random.below(AROUND.len());
    AROUND.get(i).copied().unwrap_or(("", ""))
}

// A script with up to so many forms around one int.
pub fn grown(heap: Global, random: &mut Random, most: usize) -> Result<Vec<u8>, AllocError> {
    let mut backs = Vec::new(heap);
    let mut text = LISTS.as_bytes().to_vec(heap)?;
    for _ in 0..random.below(most) {
        let (front, back) = around(random);
        text.extend_from_slice(front.as_bytes())?;
        backs.push(back)?;
    }
    text.extend_from_slice(b"20")?;
    for back in backs.iter().rev() {
        text.extend_from_slice(back.as_bytes())?;
    }
    text.extend_from_slice(b"))")?;
    Ok(text)
}

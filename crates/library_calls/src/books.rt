//! Call files, and the books that they leave.

use book::book::Book;
use monitor::replay::replay;

/// The book that a call file leaves; a faulty one leaves the fresh one.
fn book_of(file: &[u8]) -> Book {
    match replay(file) {
        Ok(replayed) => replayed.book,
        Err(_) => Book::fresh(),
    }
}

/// The worked file of docs/RULES.md: four closed days, all pairs in category 1.
pub fn worked_file() -> Book {
    book_of(
        b"call,id,kind,category,day,side,amount,deliverer,receiver\n\
          1,1,1,1,0,1,10000,1,2\n\
          4,1,0,0,0,0,5000,0,0\n\
          6,0,0,0,0,0,0,0,0\n\
          4,1,0,0,0,0,2000,0,0\n\
          6,0,0,0,0,0,0,0,0\n\
          6,0,0,0,0,0,0,0,0\n\
          4,1,0,0,0,0,3000,0,0\n\
          1,2,1,1,1,2,4000,2,1\n\
          4,2,0,0,0,0,4000,0,0\n\
          6,0,0,0,0,0,0,0,0\n",
    )
}

/// A pair that fails, one that settles and one that settles in part, each in a category of its own: 1, 5 and 9.
pub fn three_categories() -> Book {
    book_of(
        b"call,id,kind,category,day,side,amount,deliverer,receiver\n\
          1,1,1,1,0,1,100,1,2\n\
          1,2,1,5,0,1,200,1,2\n\
          1,3,1,9,0,1,300,1,2\n\
          4,2,0,0,0,0,200,0,0\n\
          4,3,0,0,0,0,100,0,0\n\
          6,0,0,0,0,0,0,0,0\n",
    )
}

/// A pair that fails.
pub fn one_pair() -> Book {
    book_of(
        b"call,id,kind,category,day,side,amount,deliverer,receiver\n\
          1,1,1,1,0,1,100,1,2\n\
          6,0,0,0,0,0,0,0,0\n",
    )
}

/// Paragraph 27 of ESMA's guidelines: four days, and the pairs that settle and fail on each.
pub fn paragraph_27() -> Book {
    book_of(
        b"call,id,kind,category,day,side,amount,deliverer,receiver\n\
          1,1,1,1,0,1,100,1,2\n\
          1,2,1,1,0,1,100,1,2\n\
          1,3,1,1,0,1,100,1,2\n\
          1,4,1,1,0,1,100,1,2\n\
          4,1,0,0,0,0,100,0,0\n\
          4,2,0,0,0,0,100,0,0\n\
          4,3,0,0,0,0,100,0,0\n\
          6,0,0,0,0,0,0,0,0\n\
          1,5,1,1,1,1,100,1,2\n\
          1,6,1,1,1,1,100,1,2\n\
          1,7,1,1,1,1,100,1,2\n\
          4,4,0,0,0,0,100,0,0\n\
          4,5,0,0,0,0,100,0,0\n\
          6,0,0,0,0,0,0,0,0\n\
          1,8,1,1,2,1,100,1,2\n\
          1,9,1,1,2,1,100,1,2\n\
          1,10,1,1,2,1,100,1,2\n\
          1,11,1,1,2,1,100,1,2\n\
          1,12,1,1,2,1,100,1,2\n\
          1,13,1,1,2,1,100,1,2\n\
          4,6,0,0,0,0,100,0,0\n\
          4,7,0,0,0,0,100,0,0\n\
          4,8,0,0,0,0,100,0,0\n\
          4,9,0,0,0,0,100,0,0\n\
          4,10,0,0,0,0,100,0,0\n\
          6,0,0,0,0,0,0,0,0\n\
          1,14,1,1,3,1,100,1,2\n\
          1,15,1,1,3,1,100,1,2\n\
          4,11,0,0,0,0,100,0,0\n\
          4,12,0,0,0,0,100,0,0\n\
          4,13,0,0,0,0,100,0,0\n\
          4,14,0,0,0,0,100,0,0\n\
          6,0,0,0,0,0,0,0,0\n",
    )
}

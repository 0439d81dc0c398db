//! Runs with `--scheme journal` and `--scheme shadow`: reports and cycles as the rules of the redo journal and of shadow
//! paging give them. The tests below journal.rt and shadow.rt are of one scheme, the others of both.
mod chosen;
mod console;
mod cuts;
mod faults;
mod images;
mod journal;
mod made;
mod reports;
mod second_cuts;
mod shadow;
mod torn;

mod files;
mod misreads;
mod shelves;
mod tools;
mod worked;

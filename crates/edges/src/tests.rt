mod books;
mod files;
mod shown;
mod values;

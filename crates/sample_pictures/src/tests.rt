mod documents;
mod views;
mod voyages;
